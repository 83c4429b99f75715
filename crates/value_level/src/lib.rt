// Levels (§7.5): a percentage by Table C-2, or hexadecimal digits, read in the scan that finds their end into a byte.
// The reader is total: any bytes have an answer. Which condition a malformed level gives is said above this crate.
#![tactic(auto)]

ghost use Rattle.std.specs.Prelude.{◌≡◌, ◌≤◌, length};
ghost use Rattle.value_level.specs.Level.{percent_byte, byte_percent, is_hex_mark};
ghost use Rattle.value_level.specs.Run.{percent_leveling, HexFits, hex_by, hex_leveling, leveling_at};

use value::DigitRun;

// A level: the largest percentage taken, and the one that all above it count as.
const PERCENT_MAX: u32 = 999;

const PERCENT_FULL: u32 = 100;

const HEX_DIGITS: usize = 4;

// Table C-2 of the standard.
const PERCENT: [u8; 101] = [
    0x00, 0x03, 0x05, 0x08, 0x0A, 0x0D, 0x0F, 0x12, 0x14, 0x17, 0x1A, 0x1C, 0x1F, 0x21, 0x24, 0x26,
    0x29, 0x2B, 0x2E, 0x30, 0x33, 0x36, 0x38, 0x3B, 0x3D, 0x40, 0x42, 0x45, 0x47, 0x4A, 0x4D, 0x4F,
    0x52, 0x54, 0x57, 0x59, 0x5C, 0x5E, 0x61, 0x63, 0x66, 0x69, 0x6B, 0x6E, 0x70, 0x73, 0x75, 0x78,
    0x7A, 0x7D, 0x80, 0x82, 0x85, 0x87, 0x8A, 0x8C, 0x8F, 0x91, 0x94, 0x96, 0x99, 0x9C, 0x9E, 0xA1,
    0xA3, 0xA6, 0xA8, 0xAB, 0xAD, 0xB0, 0xB3, 0xB5, 0xB8, 0xBA, 0xBD, 0xBF, 0xC2, 0xC4, 0xC7, 0xC9,
    0xCC, 0xCF, 0xD1, 0xD4, 0xD6, 0xD9, 0xDB, 0xDE, 0xE0, 0xE3, 0xE6, 0xE8, 0xEB, 0xED, 0xF0, 0xF2,
    0xF5, 0xF7, 0xFA, 0xFC, 0xFF,
];

pub fn percent_byte(p: usize) -> u8
    requires { p ≤ 100 }
    ensures { result ≡ percent_byte p }
{
    PERCENT[p]
}

// The percentage of a level, by Table C-1 of the standard.
#[tactic(auto, unfolding(crate::specs::Level::byte_percent))]
pub fn byte_percent(level: u8) -> u32
    ensures { result ≡ byte_percent level }
{
    (u32::from(level) * 200 + 255) / 510
}

// In which of the two formats a level is malformed.
#[derive(Clone, Copy, PartialEq, Eq, Debug)]
pub enum LevelError {
    NotPercent,
    NotHex,
}

// A level's byte as it stands in a text, and where its characters end.
#[derive(Clone, Copy)]
pub struct Leveling {
    pub level: Result<u8, LevelError>,
    pub end: usize,
}

// The digits from `at` on.
fn percent(text: &[u8], at: usize) -> Leveling
    requires { at ≤ length text.now }
    ensures { result ≡ percent_leveling text.now at }
{
    let DigitRun { value, end } = value::digits_at(text, at);
    let level = if end == at || PERCENT_MAX < value {
        Err(LevelError::NotPercent)
    } else {
        Ok(percent_byte(value.min(PERCENT_FULL) as usize))
    };
    Leveling { level, end }
}

// The digits after the H, of which there are n. One or two are the byte; of three or four the last two are discarded.
#[tactic(auto, unfolding(crate::specs::Run::hex_by))]
fn hexadecimal(n: usize, v: u32) -> Result<u8, LevelError>
    requires { HexFits n v }
    ensures { result ≡ hex_by n v }
{
    match n {
        1..=2 => Ok(v as u8),
        3..=HEX_DIGITS => Ok((v / 256) as u8),
        _ => Err(LevelError::NotHex),
    }
}

fn hex_at(text: &[u8], at: usize) -> Leveling
    requires { at ≤ length text.now }
    ensures { result ≡ hex_leveling text.now at }
{
    let DigitRun { value, end } = value::hex_at(text, at);
    Leveling {
        level: hexadecimal(end - at, value),
        end,
    }
}

pub fn hex_mark(c: u8) -> bool
    ensures { result ≡ is_hex_mark c }
{
    matches!(c, b'H' | b'h')
}

// The level that the characters from `at` on make, up to the first that no level goes on with.
pub fn level_at(text: &[u8], at: usize) -> Leveling
    requires { at ≤ length text.now }
    ensures { result ≡ leveling_at text.now at }
{
    match text.get(at) {
        Some(c) if hex_mark(*c) => hex_at(text, at + 1),
        _ => percent(text, at),
    }
}
