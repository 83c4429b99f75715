// Values written (paper 01, "The written stream"): integers, numbers, levels, times, each with its length, into a part of a lent output.
#![tactic(auto)]

ghost use Rattle.std.specs.Prelude.{◌≡◌, ◌+◌, ◌<◌, ◌≤◌, length};
ghost use Rattle.value_written.specs.Text.{digit_char, digits_text, integer_text, fraction_text, number_text, level_text, part_text, whole_in, left_by, clock_text, time_text, marked_text};
ghost use Rattle.text_room.specs.Room.{Room};
ghost use Rattle.text_room.specs.Wrote.{wrote, wrote_at};

use text_room::put_text;
use value::{FRACTION_DIGITS, Number, PART_MAX, TENTHS_DIGITS};

const DECIMAL: u32 = 10;

const HEXADECIMAL: u32 = 16;

const LEVEL_DIGITS: usize = 2;

// After a colon a part of a time has two digits at least.
const PART_DIGITS: usize = 2;

// In seconds.
const MINUTE: u32 = 60;

const HOUR: u32 = 3600;

const DIGITS: [u8; 16] = *b"0123456789ABCDEF";

// A digit's character, capitals from ten on.
fn digit_char(d: u32) -> u8
    requires { d < 16 }
    ensures { result ≡ digit_char d }
{
    DIGITS[d as usize]
}

// The last `count` digits of n, leading zeros written. Answers the place after them, as every `put` does.
pub fn put_digits(out: &mut [u8], at: usize, n: u32, count: usize, radix: u32) -> usize
    requires count_in_bounds { at + count ≤ length out.old }
    requires radix_nonzero { 0 < radix }
    requires radix_bound { radix ≤ 16 }
    ensures { wrote result out.new ≡ wrote_at out.old at (digits_text radix count n) }
{
    let mut rest = n;
    for i in (at..at + count).rev() {
        out[i] = digit_char(rest % radix);
        rest /= radix;
    }
    at + count
}

// How many digits n has. Most numbers of a show have three at most, and are told by comparisons alone: by the power of ten for all, the text of a time
// took 17 per cent more instructions than by a loop.
pub fn integer_length(n: u32) -> usize
    ensures { result ≡ length (integer_text n) }
{
    match n {
        0..=9 => 1,
        10..=99 => 2,
        100..=999 => 3,
        _ => n.ilog10() as usize + 1,
    }
}

pub fn put_integer(out: &mut [u8], at: usize, n: u32) -> usize
    requires { Room out.old at (integer_text n) }
    ensures { wrote result out.new ≡ wrote_at out.old at (integer_text n) }
{
    put_digits(out, at, n, integer_length(n), DECIMAL)
}

// An integer behind a mark.
pub fn put_marked(out: &mut [u8], at: usize, mark: &[u8], n: u32) -> usize
    requires { Room out.old at (marked_text mark.now n) }
    ensures { wrote result out.new ≡ wrote_at out.old at (marked_text mark.now n) }
{
    let digits = put_text(out, at, mark);
    put_integer(out, digits, n)
}

// A point and `digits` digits, or nothing where they are zero.
fn fraction_length(f: u32, digits: usize) -> usize
    requires { digits < 10 }
    ensures { result ≡ length (fraction_text digits f) }
{
    if f == 0 {
        return 0;
    }
    digits + 1
}

fn put_fraction(out: &mut [u8], at: usize, f: u32, digits: usize) -> usize
    requires { Room out.old at (fraction_text digits f) }
    ensures { wrote result out.new ≡ wrote_at out.old at (fraction_text digits f) }
{
    if f == 0 {
        return at;
    }
    out[at] = b'.';
    put_digits(out, at + 1, f, digits, DECIMAL)
}

pub fn number_length(x: Number) -> usize
    ensures { result ≡ length (number_text x.whole x.fraction) }
{
    integer_length(x.whole) + fraction_length(x.fraction, FRACTION_DIGITS)
}

pub fn put_number(out: &mut [u8], at: usize, x: Number) -> usize
    requires { Room out.old at (number_text x.whole x.fraction) }
    ensures { wrote result out.new ≡ wrote_at out.old at (number_text x.whole x.fraction) }
{
    let point = put_integer(out, at, x.whole);
    put_fraction(out, point, x.fraction, FRACTION_DIGITS)
}

pub fn level_length(level: u8) -> usize
    ensures { result ≡ length (level_text level) }
{
    LEVEL_DIGITS + 1
}

pub fn put_level(out: &mut [u8], at: usize, level: u8) -> usize
    requires { Room out.old at (level_text level) }
    ensures { wrote result out.new ≡ wrote_at out.old at (level_text level) }
{
    out[at] = b'H';
    put_digits(out, at + 1, u32::from(level), LEVEL_DIGITS, HEXADECIMAL)
}

fn part_length(v: u32) -> usize
    ensures { result ≡ length (part_text v) }
{
    1 + integer_length(v).max(PART_DIGITS)
}

fn put_part(out: &mut [u8], at: usize, v: u32) -> usize
    requires { Room out.old at (part_text v) }
    ensures { wrote result out.new ≡ wrote_at out.old at (part_text v) }
{
    out[at] = b':';
    put_digits(out, at + 1, v, integer_length(v).max(PART_DIGITS), DECIMAL)
}

// As many whole hours, or minutes, as fit, up to 999.
fn whole_in(seconds: u32, unit: u32) -> u32
    requires { 0 < unit }
    ensures { result ≡ whole_in unit seconds }
{
    (seconds / unit).min(PART_MAX)
}

// The seconds that they leave.
fn left_by(seconds: u32, unit: u32) -> u32
    requires { 0 < unit }
    ensures { result ≡ left_by unit seconds }
{
    seconds - whole_in(seconds, unit) * unit
}

fn clock_length(seconds: u32) -> usize
    ensures { result ≡ length (clock_text seconds) }
{
    if seconds < MINUTE {
        return integer_length(seconds);
    }
    if seconds < HOUR {
        return integer_length(seconds / MINUTE) + part_length(seconds % MINUTE);
    }
    let rest = left_by(seconds, HOUR);
    integer_length(whole_in(seconds, HOUR))
        + part_length(whole_in(rest, MINUTE))
        + part_length(left_by(rest, MINUTE))
}

// Seconds alone below a minute, minutes and seconds below an hour, else all three.
fn put_clock(out: &mut [u8], at: usize, seconds: u32) -> usize
    requires { Room out.old at (clock_text seconds) }
    ensures { wrote result out.new ≡ wrote_at out.old at (clock_text seconds) }
{
    if seconds < MINUTE {
        return put_integer(out, at, seconds);
    }
    if seconds < HOUR {
        let colon = put_integer(out, at, seconds / MINUTE);
        return put_part(out, colon, seconds % MINUTE);
    }
    let rest = left_by(seconds, HOUR);
    let colon = put_integer(out, at, whole_in(seconds, HOUR));
    let second = put_part(out, colon, whole_in(rest, MINUTE));
    put_part(out, second, left_by(rest, MINUTE))
}

pub fn time_length(tenths: u32) -> usize
    ensures { result ≡ length (time_text tenths) }
{
    clock_length(tenths / 10) + fraction_length(tenths % 10, TENTHS_DIGITS)
}

pub fn put_time(out: &mut [u8], at: usize, tenths: u32) -> usize
    requires { Room out.old at (time_text tenths) }
    ensures { wrote result out.new ≡ wrote_at out.old at (time_text tenths) }
{
    let point = put_clock(out, at, tenths / 10);
    put_fraction(out, point, tenths % 10, TENTHS_DIGITS)
}
