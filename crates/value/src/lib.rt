// Values of fields (§7.2, §7.4, §7.6, §7.7, §8.4): integers, cue numbers, times, versions, pages, each read from a field's characters.
// Every reader is total: any bytes have an answer. Which condition a malformed value gives is said above this crate.
#![tactic(auto)]

ghost use Rattle.std.specs.Prelude.{◌≡◌, ◌+◌, ◌*◌, ◌<◌, ◌≤◌, min, length, SomeIff};
ghost use Rattle.value.specs.Integer.{cap, digit_of, run_of, integer_of, AtMost};
ghost use Rattle.value.specs.Digits.{digits_at};
ghost use Rattle.value.specs.Parts.{point, cut_at, before, decimals_of};
ghost use Rattle.value.specs.Number.{numbered_of, number_of, borne_by, borne_of};
ghost use Rattle.value.specs.Time.{part_max, part_of, join_of, later_of, clock_of, time_of};
ghost use Rattle.value.specs.Field.{versioned_of, version_of, page_of};

// What a digit run is cut at: above every limit and far below what wraps, so that a long one is too large and nothing else.
const CAP: u32 = 100_000;

const DECIMAL: u32 = 10;

const HEXADECIMAL: u32 = 16;

// The largest whole part of a cue or group number, how many digits may follow its point, and the largest that so many digits write.
pub const WHOLE_MAX: u32 = 999;

pub const FRACTION_DIGITS: usize = 1;

pub const FRACTION_MAX: u32 = 9;

// The largest whole part of a number that a CUE bears or a LINK asks for (C-13), how many numbers there are to a whole one, and what stands
// for no such number.
const BORNE_MAX: u32 = 9999;

const FRACTION_SPAN: u32 = FRACTION_MAX + 1;

pub const NO_NUMBER: u32 = (BORNE_MAX + 1) * FRACTION_SPAN;

// A time: the largest part, and how many digits may follow the point.
pub const PART_MAX: u32 = 999;

pub const TENTHS_DIGITS: usize = 1;

// The largest time in tenths, 999:999:999.9.
pub const TIME_MAX: u32 = ((PART_MAX * 60 + PART_MAX) * 60 + PART_MAX) * 10 + 9;

// What each character counts as a digit: 0 to 9, A to F, a to f, and 16 where it is none. A table, since with a `match` or `to_digit`, which branch
// at each letter, the load of a large show of 262 kB took 2.7 ms in place of 2.3.
const DIGITS: [u8; 256] = [
    0x10, 0x10, 0x10, 0x10, 0x10, 0x10, 0x10, 0x10, 0x10, 0x10, 0x10, 0x10, 0x10, 0x10, 0x10, 0x10,
    0x10, 0x10, 0x10, 0x10, 0x10, 0x10, 0x10, 0x10, 0x10, 0x10, 0x10, 0x10, 0x10, 0x10, 0x10, 0x10,
    0x10, 0x10, 0x10, 0x10, 0x10, 0x10, 0x10, 0x10, 0x10, 0x10, 0x10, 0x10, 0x10, 0x10, 0x10, 0x10,
    0x00, 0x01, 0x02, 0x03, 0x04, 0x05, 0x06, 0x07, 0x08, 0x09, 0x10, 0x10, 0x10, 0x10, 0x10, 0x10,
    0x10, 0x0A, 0x0B, 0x0C, 0x0D, 0x0E, 0x0F, 0x10, 0x10, 0x10, 0x10, 0x10, 0x10, 0x10, 0x10, 0x10,
    0x10, 0x10, 0x10, 0x10, 0x10, 0x10, 0x10, 0x10, 0x10, 0x10, 0x10, 0x10, 0x10, 0x10, 0x10, 0x10,
    0x10, 0x0A, 0x0B, 0x0C, 0x0D, 0x0E, 0x0F, 0x10, 0x10, 0x10, 0x10, 0x10, 0x10, 0x10, 0x10, 0x10,
    0x10, 0x10, 0x10, 0x10, 0x10, 0x10, 0x10, 0x10, 0x10, 0x10, 0x10, 0x10, 0x10, 0x10, 0x10, 0x10,
    0x10, 0x10, 0x10, 0x10, 0x10, 0x10, 0x10, 0x10, 0x10, 0x10, 0x10, 0x10, 0x10, 0x10, 0x10, 0x10,
    0x10, 0x10, 0x10, 0x10, 0x10, 0x10, 0x10, 0x10, 0x10, 0x10, 0x10, 0x10, 0x10, 0x10, 0x10, 0x10,
    0x10, 0x10, 0x10, 0x10, 0x10, 0x10, 0x10, 0x10, 0x10, 0x10, 0x10, 0x10, 0x10, 0x10, 0x10, 0x10,
    0x10, 0x10, 0x10, 0x10, 0x10, 0x10, 0x10, 0x10, 0x10, 0x10, 0x10, 0x10, 0x10, 0x10, 0x10, 0x10,
    0x10, 0x10, 0x10, 0x10, 0x10, 0x10, 0x10, 0x10, 0x10, 0x10, 0x10, 0x10, 0x10, 0x10, 0x10, 0x10,
    0x10, 0x10, 0x10, 0x10, 0x10, 0x10, 0x10, 0x10, 0x10, 0x10, 0x10, 0x10, 0x10, 0x10, 0x10, 0x10,
    0x10, 0x10, 0x10, 0x10, 0x10, 0x10, 0x10, 0x10, 0x10, 0x10, 0x10, 0x10, 0x10, 0x10, 0x10, 0x10,
    0x10, 0x10, 0x10, 0x10, 0x10, 0x10, 0x10, 0x10, 0x10, 0x10, 0x10, 0x10, 0x10, 0x10, 0x10, 0x10,
];

// What a digit of the radix counts.
fn digit(c: u8, radix: u32) -> Option<u32>
    ensures { SomeIff result (digit_of c < radix) (digit_of c) }
{
    let d = u32::from(DIGITS[usize::from(c)]);
    (d < radix).then_some(d)
}

// One more digit behind a value: CAP stays CAP.
fn grown(value: u32, radix: u32, d: u32) -> u32
    requires value_le_cap { value ≤ cap }
    requires radix_bound { radix ≤ 16 }
    requires d_bound { d ≤ 16 }
    ensures { result ≡ min (value * radix + d) cap }
{
    (value * radix + d).min(CAP)
}

// A whole field of digits, one or more, its value cut at CAP: numbers with parts, pages and submasters come through here.
pub fn run(s: &[u8], radix: u32) -> Option<u32>
    requires radix_nonzero { 0 < radix }
    requires radix_bound { radix ≤ 16 }
    ensures { result ≡ run_of radix s.now }
{
    if s.is_empty() {
        return None;
    }
    let mut value = 0;
    for c in s {
        value = grown(value, radix, digit(*c, radix)?);
    }
    Some(value)
}

pub fn read_integer(s: &[u8]) -> Option<u32>
    ensures { result ≡ integer_of s.now }
{
    run(s, DECIMAL)
}

// Digits as they stand in a text: their value, cut at CAP, and where they end.
#[derive(Clone, Copy, PartialEq, Eq)]
pub struct DigitRun {
    pub value: u32,
    pub end: usize,
}

// The digits from `at` on, read in the one scan that finds their end.
#[inline(always)]
fn digit_run<const RADIX: u32>(text: &[u8], at: usize) -> DigitRun
    requires at_in_bounds { at ≤ length text.now }
    requires radix_nonzero { 0 < RADIX }
    requires radix_bound { RADIX ≤ 16 }
    ensures { result ≡ digits_at RADIX text.now at }
{
    let mut value = 0;
    for i in at..text.len() {
        let Some(d) = digit(text[i], RADIX) else {
            return DigitRun { value, end: i };
        };
        value = grown(value, RADIX, d);
    }
    DigitRun {
        value,
        end: text.len(),
    }
}

// The decimal digits from `at` on.
pub fn digits_at(text: &[u8], at: usize) -> DigitRun
    requires { at ≤ length text.now }
    ensures { result ≡ digits_at 10 text.now at }
{
    digit_run::<DECIMAL>(text, at)
}

// The hexadecimal digits from `at` on.
pub fn hex_at(text: &[u8], at: usize) -> DigitRun
    requires { at ≤ length text.now }
    ensures { result ≡ digits_at 16 text.now at }
{
    digit_run::<HEXADECIMAL>(text, at)
}

// The place of the first `b`, or the length where there is none.
fn cut(s: &[u8], b: u8) -> usize
    ensures { result ≡ cut_at b s.now }
{
    s.iter().position(|c| *c == b).unwrap_or(s.len())
}

// The digits behind a point at `at`, at most `most`; 0 where `at` is the end and there is no point.
fn decimals(s: &[u8], at: usize, most: usize) -> Option<u32>
    ensures { result ≡ decimals_of most s.now at }
{
    if s.len() <= at {
        return Some(0);
    }
    let rest = &s[at + 1..];
    if most < rest.len() {
        return None;
    }
    read_integer(rest)
}

// A cue, group or link number.
#[derive(Clone, Copy, PartialEq, Eq)]
pub struct Number {
    pub whole: u32,
    pub fraction: u32,
}

// Why a field is no such number.
#[derive(Clone, Copy, PartialEq, Eq, Debug)]
pub enum NumberError {
    Malformed,
    TooLarge,
}

// The format is tested before the size; 0 and 0.0 have no right format.
fn sized(whole: Option<u32>, fraction: Option<u32>) -> Result<Number, NumberError>
    requires whole_capped { AtMost cap whole }
    requires fraction_capped { AtMost cap fraction }
    ensures { result ≡ numbered_of whole fraction }
{
    let (Some(w), Some(f)) = (whole, fraction) else {
        return Err(NumberError::Malformed);
    };
    if WHOLE_MAX < w {
        return Err(NumberError::TooLarge);
    }
    if w + f == 0 {
        return Err(NumberError::Malformed);
    }
    Ok(Number {
        whole: w,
        fraction: f,
    })
}

// A number's whole part by the digits that it begins with: malformed where there are none, or where neither the point nor the end follows.
fn whole_by(s: &[u8], d: DigitRun) -> Option<u32>
    requires { d ≡ digits_at 10 s.now 0 }
    ensures { result ≡ integer_of (before (cut_at point s.now) s.now) }
{
    if d.end == 0 || d.end < s.len() && s[d.end] != b'.' {
        return None;
    }
    Some(d.value)
}

// The whole part is read in the one scan that finds its end.
pub fn read_number(s: &[u8]) -> Result<Number, NumberError>
    ensures { result ≡ number_of s.now }
{
    let d = digits_at(s, 0);
    let whole = whole_by(s, d);
    sized(whole, decimals(s, d.end, FRACTION_DIGITS))
}

// The number that two parts write, whatever the desk could keep; NO_NUMBER where they write none.
fn borne(whole: Option<u32>, fraction: Option<u32>) -> u32
    requires { AtMost cap fraction }
    ensures { result ≡ borne_by whole fraction }
{
    let (Some(w), Some(f)) = (whole, fraction) else {
        return NO_NUMBER;
    };
    if BORNE_MAX < w {
        return NO_NUMBER;
    }
    w * FRACTION_SPAN + f
}

// What a CUE bears and a LINK asks for in a load with translation.
pub fn read_borne(s: &[u8]) -> u32
    ensures { result ≡ borne_of s.now }
{
    let point = cut(s, b'.');
    let whole = read_integer(&s[..point]);
    borne(whole, decimals(s, point, FRACTION_DIGITS))
}

// One part of a time: hours, minutes or seconds.
#[tactic(auto, unfolding(crate::specs::Time::part_of, crate::specs::Time::bounded_of))]
fn part(s: &[u8]) -> Option<u32>
    ensures { result ≡ part_of s.now }
{
    let v = read_integer(s)?;
    (v <= PART_MAX).then_some(v)
}

// Two parts, of which the second counts units of which the first has `base` each.
fn joined(high: Option<u32>, base: u32, low: Option<u32>) -> Option<u32>
    requires high_bound { AtMost 10_000_000 high }
    requires base_bound { base ≤ 100 }
    requires low_capped { AtMost cap low }
    ensures { result ≡ join_of high base low }
{
    Some(high? * base + low?)
}

// The parts after the first colon, one or two of them, behind what stood before it.
fn later(first: Option<u32>, s: &[u8]) -> Option<u32>
    requires { AtMost part_max first }
    ensures { result ≡ later_of first s.now }
{
    let colon = cut(s, b':');
    if s.len() <= colon {
        return joined(first, 60, part(s));
    }
    let middle = joined(first, 60, part(&s[..colon]));
    joined(middle, 60, part(&s[colon + 1..]))
}

// Hours, minutes and seconds as seconds.
fn clock(s: &[u8]) -> Option<u32>
    ensures { result ≡ clock_of s.now }
{
    let colon = cut(s, b':');
    let first = part(&s[..colon]);
    if s.len() <= colon {
        return first;
    }
    later(first, &s[colon + 1..])
}

// A time in tenths of a second.
pub fn read_time(s: &[u8]) -> Option<u32>
    ensures { result ≡ time_of s.now }
{
    let point = cut(s, b'.');
    let seconds = clock(&s[..point]);
    joined(seconds, 10, decimals(s, point, TENTHS_DIGITS))
}

// IDENT's major:minor.
#[derive(Clone, Copy, PartialEq, Eq)]
pub struct Version {
    pub major: u32,
    pub minor: u32,
}

fn versioned(major: Option<u32>, minor: Option<u32>) -> Option<Version>
    ensures { result ≡ versioned_of major minor }
{
    Some(Version {
        major: major?,
        minor: minor?,
    })
}

pub fn read_version(s: &[u8]) -> Option<Version>
    ensures { result ≡ version_of s.now }
{
    let colon = cut(s, b':');
    if s.len() <= colon {
        return None;
    }
    let major = read_integer(&s[..colon]);
    versioned(major, read_integer(&s[colon + 1..]))
}

// A page, 1 to `limit`.
#[tactic(auto, unfolding(crate::specs::Field::page_of, crate::specs::Field::paged_of))]
pub fn read_page(s: &[u8], limit: u32) -> Option<u32>
    ensures { result ≡ page_of limit s.now }
{
    read_integer(s).filter(|v| (1..=limit).contains(v))
}
