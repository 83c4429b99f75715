// One line of the written stream at a time (paper 01, "The written stream"): its text, written into a lent output, and its length.
#![tactic(auto)]

ghost use Rattle.std.specs.Prelude.{◌≡◌, [], ◌∷◌, ◌≤◌, ◌<◌, length};
ghost use Rattle.text_room.specs.Wrote.{wrote, wrote_at};
ghost use Rattle.save_lines.specs.Line.{crlf, joined, patch_text, patch_line, kind_text, primary_text, delay_text, time_line, link_line, head_lines};
ghost use Rattle.text_room.specs.Room.{Room};
ghost use Rattle.save_lines.specs.Part.{at_level_text};

use store_desk::{Key, Kind};
use store_head::{Head, Patch};
use text_room::put_text;
use value::Number;
use value_written::put_marked;

// A line's end.
pub const END: &[u8] = b"\r\n";

const LINK: &[u8] = b"LINK ";

// Every `put` writes its text at a place and answers the place after it.
pub fn put_end(out: &mut [u8], at: usize) -> usize
    requires { Room out.old at crlf }
    ensures { wrote result out.new ≡ wrote_at out.old at crlf }
{
    put_text(out, at, END)
}

pub fn put_at_level(out: &mut [u8], at: usize, level: u8) -> usize
    requires { Room out.old at (at_level_text level) }
    ensures { wrote result out.new ≡ wrote_at out.old at (at_level_text level) }
{
    let digits = put_text(out, at, b"@");
    value_written::put_level(out, digits, level)
}

// ---- PATCH

fn put_patch_text(out: &mut [u8], at: usize, page: u32, dimmer: u32, p: Patch) -> usize
    requires room { Room out.old at (patch_text page dimmer p) }
    requires level_bound { p.level < 256 }
    ensures { wrote result out.new ≡ wrote_at out.old at (patch_text page dimmer p) }
{
    // The contract rules out a loss, and a `try_from` would need an answer for one.
    let level = p.level as u8;
    let channel = put_marked(out, at, b"PATCH ", page);
    let number = put_marked(out, channel, b" ", p.channel);
    let mark = put_marked(out, number, b"<", dimmer);
    put_at_level(out, mark, level)
}

// Nothing for a dimmer that is not patched.
pub fn put_patch(out: &mut [u8], at: usize, page: u32, dimmer: u32, p: Patch) -> usize
    requires room { Room out.old at (joined (patch_line page dimmer p)) }
    requires level_bound { p.level < 256 }
    ensures { wrote result out.new ≡ wrote_at out.old at (joined (patch_line page dimmer p)) }
{
    if p.channel == 0 {
        return at;
    }
    let end = put_patch_text(out, at, page, dimmer, p);
    put_end(out, end)
}

// ---- the primary

#[tactic(auto, unfolding(crate::specs::Line::kind_text))]
fn kind_word(kind: Kind) -> &'static [u8]
    ensures { result.now ≡ kind_text kind }
{
    match kind {
        Kind::Cue => b"CUE ",
        Kind::Group => b"GROUP ",
        Kind::Sub => b"SUB ",
    }
}

// A primary always has its page.
pub fn put_primary(out: &mut [u8], at: usize, kind: Kind, key: Key) -> usize
    requires { Room out.old at (joined (primary_text kind key ∷ [])) }
    ensures { wrote result out.new ≡ wrote_at out.old at (joined (primary_text kind key ∷ [])) }
{
    let number = Number {
        whole: key.whole,
        fraction: key.fraction,
    };
    let digits = put_text(out, at, kind_word(kind));
    let page = value_written::put_number(out, digits, number);
    let end = put_marked(out, page, b" ", key.page);
    put_end(out, end)
}

// ---- UP, DOWN, FOLLOWON, LINK

// A zero delay is left out.
fn put_delay(out: &mut [u8], at: usize, delay: u32) -> usize
    requires { Room out.old at (delay_text delay) }
    ensures { wrote result out.new ≡ wrote_at out.old at (delay_text delay) }
{
    if delay == 0 {
        return at;
    }
    let digits = put_text(out, at, b" ");
    value_written::put_time(out, digits, delay)
}

// A value that is not present has no line.
fn put_time_line(
    out: &mut [u8],
    at: usize,
    word: &[u8],
    present: u32,
    fade: u32,
    delay: u32,
) -> usize
    requires { Room out.old at (joined (time_line word.now present fade delay)) }
    ensures { wrote result out.new ≡ wrote_at out.old at (joined (time_line word.now present fade delay)) }
{
    if present == 0 {
        return at;
    }
    let time = put_text(out, at, word);
    let second = value_written::put_time(out, time, fade);
    let end = put_delay(out, second, delay);
    put_end(out, end)
}

fn put_link(out: &mut [u8], at: usize, h: Head) -> usize
    requires { Room out.old at (joined (link_line h)) }
    ensures { wrote result out.new ≡ wrote_at out.old at (joined (link_line h)) }
{
    if h.link == 0 {
        return at;
    }
    let number = Number {
        whole: h.link_whole,
        fraction: h.link_fraction,
    };
    let digits = put_text(out, at, LINK);
    let end = value_written::put_number(out, digits, number);
    put_end(out, end)
}

pub fn put_head(out: &mut [u8], at: usize, h: Head) -> usize
    requires { Room out.old at (joined (head_lines h)) }
    ensures { wrote result out.new ≡ wrote_at out.old at (joined (head_lines h)) }
{
    let down = put_time_line(out, at, b"UP ", h.up, h.up_fade, h.up_delay);
    let followon = put_time_line(out, down, b"DOWN ", h.down, h.down_fade, h.down_delay);
    let link = put_time_line(out, followon, b"FOLLOWON ", h.followon, h.followon_time, 0);
    put_link(out, link, h)
}

// ---- lengths

// A PATCH line without its three integers; a level has three characters.
const PATCH_MARKS: usize = b"PATCH  <@HFF\r\n".len();

#[tactic(auto, using(crate::proofs::Lengths::lengths))]
pub fn patch_length(page: u32, dimmer: u32, p: Patch) -> usize
    ensures { result ≡ length (joined (patch_line page dimmer p)) }
{
    if p.channel == 0 {
        return 0;
    }
    value_written::integer_length(page)
        + value_written::integer_length(p.channel)
        + value_written::integer_length(dimmer)
        + PATCH_MARKS
}

#[tactic(auto, using(crate::proofs::Lengths::lengths))]
pub fn primary_length(kind: Kind, key: Key) -> usize
    ensures { result ≡ length (joined (primary_text kind key ∷ [])) }
{
    let number = Number {
        whole: key.whole,
        fraction: key.fraction,
    };
    kind_word(kind).len()
        + value_written::number_length(number)
        + b" ".len()
        + value_written::integer_length(key.page)
        + END.len()
}

#[tactic(auto, using(crate::proofs::Lengths::lengths))]
fn delay_length(delay: u32) -> usize
    ensures { result ≡ length (delay_text delay) }
{
    if 0 < delay {
        b" ".len() + value_written::time_length(delay)
    } else {
        0
    }
}

#[tactic(auto, using(crate::proofs::Lengths::lengths))]
fn time_line_length(word: &[u8], present: u32, fade: u32, delay: u32) -> usize
    requires { length word.now ≤ 9 }
    ensures { result ≡ length (joined (time_line word.now present fade delay)) }
{
    if present == 0 {
        return 0;
    }
    word.len() + value_written::time_length(fade) + delay_length(delay) + END.len()
}

#[tactic(auto, using(crate::proofs::Lengths::lengths))]
fn link_length(h: Head) -> usize
    ensures { result ≡ length (joined (link_line h)) }
{
    if h.link == 0 {
        return 0;
    }
    let number = Number {
        whole: h.link_whole,
        fraction: h.link_fraction,
    };
    LINK.len() + value_written::number_length(number) + END.len()
}

pub fn head_length(h: Head) -> usize
    ensures { result ≡ length (joined (head_lines h)) }
{
    let up = time_line_length(b"UP ", h.up, h.up_fade, h.up_delay);
    let down = time_line_length(b"DOWN ", h.down, h.down_fade, h.down_delay);
    let followon = time_line_length(b"FOLLOWON ", h.followon, h.followon_time, 0);
    up + down + followon + link_length(h)
}
