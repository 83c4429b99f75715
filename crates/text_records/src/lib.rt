// Records of a stream (paper 01, "Records (§5)"): where each one starts and ends, the record as received, and its text without
// ignored characters and comments.
#![tactic(auto)]

ghost use Rattle.std.specs.Prelude.{◌≡◌, ◌-◌, ◌≤◌, ◌<◌, length, drop};
ghost use Rattle.cells.specs.Put.{put};
ghost use Rattle.text_records.specs.Stream.{is_end, record_end, next_start};
ghost use Rattle.text_records.specs.Received.{longest};
ghost use Rattle.text_records.specs.Cleaning.{is_control, kept_of, column_of};
ghost use Rattle.text_records.specs.Window.{window_of, over_long, is_special, is_graphic, is_kept, block, all_plain_of, plain_end, seen_of, mark_of, in_front, cleaned_of, left_behind};

// How many characters a record may have.
const LONGEST: usize = 80;

// How many characters are looked at in one step.
const BLOCK: usize = 8;

// A record as received: 80 bytes of the stream from its first character on, and how many characters it has in all. A count above 80 tells
// an over-long record.
#[derive(Clone, Copy)]
pub struct Record {
    pub bytes: [u8; 80],
    pub count: usize,
}

// A record's text: how many characters it has, and whether the whole record, its comment with it, has an ignored character of each sort.
#[derive(Clone, Copy)]
pub struct Cleaned {
    pub count: usize,
    pub high: bool,
    pub control: bool,
}

const MARK: u8 = b'!';

const TAB: u8 = 9;

const SPACE: u8 = 32;

const DELETE: u8 = 127;

const CR: u8 = 13;

const LF: u8 = 10;

#[tactic(auto, unfolding(crate::specs::Stream::is_end))]
pub fn is_end(c: u8) -> bool
    ensures { result ≡ is_end c }
{
    matches!(c, CR | LF)
}

// ---- where records begin and end

// A character that is not plain: it may be ignored, or end the text, or be a terminator. A tab is rare, and counts as such.
#[tactic(auto, unfolding(crate::specs::Window::is_special))]
fn is_other(c: u8) -> bool
    ensures { result ≡ is_special c }
{
    !matches!(c, b' ' | b'"'..=b'~')
}

// A plain character that is no space. It stands beside the test above, for a scan that goes character by character: one test tells most
// characters, and a second one a space.
#[tactic(auto, unfolding(crate::specs::Window::is_graphic))]
fn is_graphic(c: u8) -> bool
    ensures { result ≡ is_graphic c }
{
    matches!(c, b'"'..=b'~')
}

// Whether a block is plain; looked at to its end, so that it goes in one step: by `||` in place of `|` a load took a twelfth more instructions.
#[tactic(auto, unfolding(crate::specs::Window::all_plain_of))]
fn is_plain(s: &[u8]) -> bool
    requires { length s.now ≡ block }
    ensures { result ≡ all_plain_of s.now }
{
    !s.iter().fold(false, |other, c| other | is_other(*c))
}

// The first place from `at` on whose character is not plain: whole blocks first, then character by character. In line where every record begins.
#[inline(always)]
pub fn plain_end(stream: &[u8], at: usize) -> usize
    requires { at ≤ length stream.now }
    ensures { result ≡ plain_end stream.now at }
{
    for i in plain_blocks(stream, at)..stream.len() {
        let c = stream[i];
        if !is_graphic(c) && c != SPACE {
            return i;
        }
    }
    stream.len()
}

// The same out of line, for a record that goes on behind such a character, and for a stream that is read again: in line there too, a load took
// 2.1 per cent more instructions.
#[inline(never)]
pub fn plain_again(stream: &[u8], at: usize) -> usize
    requires { at ≤ length stream.now }
    ensures { result ≡ plain_end stream.now at }
{
    plain_end(stream, at)
}

// The place up to which there are whole blocks of plain characters from `at` on. By `chunks_exact` and `take_while` a load took 2.1 per cent more
// instructions.
fn plain_blocks(stream: &[u8], at: usize) -> usize
    requires { at ≤ length stream.now }
    ensures { (result ≤ length stream.now) × (plain_end stream.now result ≡ plain_end stream.now at) }
{
    let mut i = at;
    while BLOCK <= stream.len() - i {
        let end = i + BLOCK;
        if !is_plain(&stream[i..end]) {
            return i;
        }
        i = end;
    }
    i
}

// The end of the record that goes on at `at`: the place of its terminator, or the end of the stream. From one character that is not plain to the
// next.
pub fn record_end(stream: &[u8], at: usize) -> usize
    requires { at ≤ length stream.now }
    ensures { result ≡ record_end stream.now at }
{
    let mut i = at;
    while i < stream.len() {
        if is_end(stream[i]) {
            return i;
        }
        i = plain_again(stream, i + 1);
    }
    i
}

// The place past the terminator that stands at `end`: where the next record starts.
#[tactic(auto, unfolding(crate::specs::Stream::terminated))]
pub fn next_start(stream: &[u8], end: usize) -> usize
    requires { end ≤ length stream.now }
    ensures { result ≡ next_start stream.now end }
{
    match &stream[end..] {
        [CR, LF, ..] | [LF, CR, ..] => end + 2,
        [CR | LF, ..] => end + 1,
        _ => end,
    }
}

// ---- the record by value

// Near its end the stream has fewer.
fn last_window(s: &[u8], count: usize) -> Record
    requires { length s.now ≤ longest }
    ensures { result ≡ window_of s.now count }
{
    let mut bytes = [0; LONGEST];
    cells::copy(&mut bytes, s);
    Record { bytes, count }
}

// The record from `at` to `end`, by value.
pub fn receive(stream: &[u8], at: usize, end: usize) -> Record
    requires { (at ≤ end) × (end ≤ length stream.now) }
    ensures { result ≡ window_of (drop at stream.now) (end - at) }
{
    let count = end - at;
    let rest = &stream[at..];
    match rest.first_chunk::<LONGEST>() {
        Some(whole) => Record {
            bytes: *whole,
            count,
        },
        None => last_window(rest, count),
    }
}

// Whether the record is too long, all its characters counted.
pub fn over_long(r: Record) -> bool
    ensures { result ≡ over_long r }
{
    LONGEST < r.count
}

// ---- its text

#[tactic(auto, unfolding(crate::specs::Cleaning::is_control))]
fn is_control(c: u8) -> bool
    ensures { result ≡ is_control c }
{
    if c < SPACE { c != TAB } else { c == DELETE }
}

// Which sorts of ignored characters were seen.
#[derive(Clone, Copy)]
struct Seen {
    high: bool,
    control: bool,
}

// The ignored characters of a comment count too. The loop has no early end, so that it goes many characters a step.
fn seen_in(s: &[u8]) -> Seen
    ensures { result ≡ seen_of s.now }
{
    let mut high = false;
    let mut control = false;
    for c in s {
        high |= DELETE < *c;
        control |= is_control(*c);
    }
    Seen { high, control }
}

// The place of the first `!`, or the end.
fn mark_in(s: &[u8]) -> usize
    ensures { result ≡ mark_of s.now }
{
    s.iter().position(|c| *c == MARK).unwrap_or(s.len())
}

// A character that is not ignored.
#[tactic(auto, unfolding(crate::specs::Window::is_kept, crate::specs::Cleaning::is_high, crate::specs::Cleaning::is_control))]
fn is_kept(c: u8) -> bool
    ensures { result ≡ is_kept c }
{
    c < DELETE && !is_control(c)
}

// Characters before any `!`: those that are not ignored move to the front. Answers how many there are.
fn squeeze(s: &mut [u8]) -> usize
    requires { mark_of s.old ≡ length s.old }
    ensures value { result ≡ length (kept_of s.old) }
    ensures s_after { s.new ≡ put s.old 0 (kept_of s.old) }
{
    let mut n = 0;
    for i in 0..s.len() {
        let c = s[i];
        if is_kept(c) {
            s[n] = c;
            n += 1;
        }
    }
    n
}

// The characters of a record that is not over-long become its text, and behind it what stood there. Only a record with ignored characters
// moves.
pub fn clean(s: &mut [u8]) -> Cleaned
    ensures { in_front result s.new ≡ cleaned_of s.old }
{
    let Seen { high, control } = seen_in(s);
    let end = mark_in(s);
    let count = if high || control {
        squeeze(&mut s[..end])
    } else {
        end
    };
    Cleaned {
        count,
        high,
        control,
    }
}

// ---- columns

// How many characters are still to be kept behind one.
#[tactic(auto, unfolding(crate::specs::Window::is_kept))]
fn left_behind(c: u8, left: usize) -> usize
    requires { 0 < left }
    ensures { result ≡ left_behind c left }
{
    if is_kept(c) { left - 1 } else { left }
}

// From character to character, until so many were kept.
fn column_among(received: &[u8], place: usize) -> usize
    ensures { result ≡ column_of received.now place }
{
    let mut left = place;
    for (i, c) in received.iter().enumerate() {
        if left == 0 {
            return i;
        }
        left = left_behind(*c, left);
    }
    received.len()
}

// The column, in the record as received, of the character in a place of its text, both from 1; place 0 has column 0. Where no character up to
// there is ignored, the column is the place, and this is seen many characters a step.
pub fn column(received: &[u8], place: usize) -> usize
    ensures { result ≡ column_of received.now place }
{
    if received.len() < place {
        return column_among(received, place);
    }
    let seen = seen_in(&received[..place]);
    if seen.high || seen.control {
        return column_among(received, place);
    }
    place
}
