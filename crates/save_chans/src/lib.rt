// The CHAN records of a memory (paper 01, "The written stream"): their text, written into a lent output, and its length.
#![tactic(auto)]

ghost use Rattle.std.specs.Prelude.{◌≡◌, ◌+◌, ◌≤◌, ◌<◌, length, drop};
ghost use Rattle.cells.specs.Scan.{span};
ghost use Rattle.text_room.specs.Wrote.{wrote, wrote_at};
ghost use Rattle.save_lines.specs.Line.{joined, lit_from, pair_text, chan_lines};
ghost use Rattle.text_room.specs.Room.{Room};
ghost use Rattle.save_chans.specs.Chan.{lit, lead_text, channel_text, pairs_with, end_of_line, is_dark};

use text_room::put_text;

// Up to so many pairs stand in a CHAN record.
const MOST_PAIRS: usize = 8;

// ---- dark channels are passed over, eight at a step

// How many of eight channels are dark ahead of the first lit one. The first level has the least weight, so that a word's lowest zeros are the
// first dark channels. A word of zeros is told by a test, so that the step after it does not wait for the count.
fn dark_of_eight(eight: &[u8; 8]) -> usize
    ensures { result ≡ span is_dark eight.now }
{
    match u64::from_le_bytes(*eight) {
        0 => 8,
        word => word.trailing_zeros() as usize / 8,
    }
}

// The same of however many; all of them where none is lit.
fn dark_ahead(levels: &[u8]) -> usize
    ensures { result ≡ span is_dark levels.now }
{
    levels
        .iter()
        .position(|level| *level != 0)
        .unwrap_or(levels.len())
}

// The place of the first lit channel from a place on, eight levels at a step, and the length where all are dark.
fn next_lit(levels: &[u8], at: usize) -> usize
    requires { at ≤ length levels.now }
    ensures { result ≡ at + span is_dark (drop at levels.now) }
{
    let mut i = at;
    while let Some(eight) = levels[i..].first_chunk() {
        let dark = dark_of_eight(eight);
        if dark < 8 {
            return i + dark;
        }
        i += 8;
    }
    i + dark_ahead(&levels[i..])
}

// ---- text

fn put_pair(out: &mut [u8], at: usize, channel: u32, level: u8) -> usize
    requires { Room out.old at (pair_text (lit channel level)) }
    ensures { wrote result out.new ≡ wrote_at out.old at (pair_text (lit channel level)) }
{
    let mark = value_written::put_marked(out, at, b" ", channel);
    save_lines::put_at_level(out, mark, level)
}

// A record is begun ahead of the first pair, and after the last that a record takes.
#[tactic(auto, unfolding(crate::specs::Chan::lead_text))]
fn lead(pairs: usize) -> &'static [u8]
    ensures { result.now ≡ lead_text pairs }
{
    match pairs {
        0 => b"CHAN",
        MOST_PAIRS => b"\r\nCHAN",
        _ => b"",
    }
}

// A lit channel.
fn put_channel(out: &mut [u8], at: usize, pairs: usize, channel: u32, level: u8) -> usize
    requires room { Room out.old at (channel_text pairs channel level) }
    requires level_nonzero { 0 < level }
    ensures { wrote result out.new ≡ wrote_at out.old at (channel_text pairs channel level) }
{
    let pair = put_text(out, at, lead(pairs));
    put_pair(out, pair, channel, level)
}

// How many pairs the record has after a lit channel.
fn pairs_after(pairs: usize) -> usize
    requires { pairs ≤ 8 }
    ensures { result ≡ pairs_with pairs }
{
    if pairs == MOST_PAIRS { 1 } else { pairs + 1 }
}

// What ends the record, if one is begun.
#[tactic(auto, unfolding(crate::specs::Chan::end_of_line))]
fn last(pairs: usize) -> &'static [u8]
    ensures { result.now ≡ end_of_line pairs }
{
    if pairs == 0 { b"" } else { save_lines::END }
}

// A cursor walks over the levels, since dark channels are passed over many at a step.
pub fn put_channels(out: &mut [u8], at: usize, levels: &[u8]) -> usize
    requires room { Room out.old at (joined (chan_lines (lit_from 1 levels.now))) }
    requires levels_len_bound { length levels.now ≤ 1024 }
    ensures { wrote result out.new ≡ wrote_at out.old at (joined (chan_lines (lit_from 1 levels.now))) }
{
    let mut next = at;
    let mut pairs: usize = 0;
    let mut i = 0;
    while let Some(&level) = levels.get(i) {
        if level == 0 {
            i = next_lit(levels, i + 1);
        } else {
            next = put_channel(&mut *out, next, pairs, (i + 1) as u32, level);
            pairs = pairs_after(pairs);
            i += 1;
        }
    }
    put_text(out, next, last(pairs))
}

// ---- lengths

#[tactic(auto, using(crate::proofs::Channels::lead_long, value_written::proofs::Texts::integer_ten, value_written::proofs::Texts::level_length))]
fn channel_length(pairs: usize, channel: u32, level: u8) -> usize
    requires { 0 < level }
    ensures { result ≡ length (channel_text pairs channel level) }
{
    lead(pairs).len()
        + value_written::integer_length(channel)
        + value_written::level_length(level)
        + b" @".len()
}

// The same walk.
pub fn channels_length(levels: &[u8]) -> usize
    requires { length levels.now ≤ 1024 }
    ensures { result ≡ length (joined (chan_lines (lit_from 1 levels.now))) }
{
    let mut total: usize = 0;
    let mut pairs: usize = 0;
    let mut i = 0;
    while let Some(&level) = levels.get(i) {
        if level == 0 {
            i = next_lit(levels, i + 1);
        } else {
            total += channel_length(pairs, (i + 1) as u32, level);
            pairs = pairs_after(pairs);
            i += 1;
        }
    }
    total + last(pairs).len()
}
