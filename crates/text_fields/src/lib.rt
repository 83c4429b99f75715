// The fields of a cleaned record, and the words that its keyword and a CLEAR item can be (paper 01, "Records (§5)").
#![tactic(auto)]

ghost use Rattle.std.specs.Prelude.{◌≡◌, true, ◌+◌, ◌≤◌, ◌<◌, length, drop};
ghost use Rattle.text_fields.specs.Words.{is_delimiter};
ghost use Rattle.text_fields.specs.Places.{end_from, start_at, field_at, is_missing, word_in};
ghost use Rattle.text_fields.specs.Keywords.{keyword_rows, item_rows};
ghost use Rattle.text_fields.specs.Tables.{letter_of, meaning_by, keyword_by, item_by, keyed_at, ends_at, Ended, is_chan, said_at, said_item_at};

use cells::byte;

// A field: where it starts and ends in the text. A missing field is empty, at the end of the text.
#[derive(Clone, Copy, PartialEq, Eq)]
pub struct Field {
    pub start: usize,
    pub end: usize,
}

// What a keyword can be: the twelve that are read, the five that are passed over, one that begins with one `$`, one that begins
// with two, and any other.
#[derive(Clone, Copy, PartialEq, Eq)]
pub enum Keyword {
    Ident,
    Clear,
    Patch,
    Cue,
    Group,
    Sub,
    Chan,
    Up,
    Down,
    Followon,
    Link,
    Enddata,
    Manufacturer,
    Console,
    Set,
    Text,
    Part,
    Local,
    Comment,
    Unknown,
}

// What CLEAR can be told to clear: the five items, one that begins with `$`, and any other.
#[derive(Clone, Copy, PartialEq, Eq)]
pub enum Item {
    All,
    Cues,
    Groups,
    Patch,
    Subs,
    Local,
    Other,
}

const DOLLAR: u8 = b'$';

const FIRST_DELIMITER: u8 = b'\t';

const LAST_DELIMITER: u8 = b'@';

// The delimiters lie between tab and `@`: bit n is set where character 9 + n is one, so that one test stands for nine.
const DELIMITERS: u64 = 52917604867637249;

// By a `match` with the range, a load took 2.1 per cent more instructions.
fn is_delimiter(c: u8) -> bool
    ensures { result ≡ is_delimiter c }
{
    if c < FIRST_DELIMITER {
        return false;
    }
    if LAST_DELIMITER < c {
        return false;
    }
    (DELIMITERS >> (c - FIRST_DELIMITER)) % 2 == 1
}

// The first place from `at` on that is no delimiter: where the next field starts.
pub fn field_start(text: &[u8], at: usize) -> usize
    requires { at ≤ length text.now }
    ensures { result ≡ start_at text.now at }
{
    for i in at..text.len() {
        if !is_delimiter(text[i]) {
            return i;
        }
    }
    text.len()
}

// Where the next field starts, behind a field that ended at `end`: the delimiter that ended it is not looked at again.
pub fn next_field(text: &[u8], end: usize) -> usize
    requires { Ended text.now end }
    ensures { result ≡ start_at text.now end }
{
    let size = text.len();
    for i in end + 1..size {
        if !is_delimiter(text[i]) {
            return i;
        }
    }
    size
}

// The first place from `at` on that is a delimiter: where a field that goes on there ends.
pub fn field_end(text: &[u8], at: usize) -> usize
    requires { at ≤ length text.now }
    ensures { result ≡ end_from text.now at }
{
    for i in at..text.len() {
        if is_delimiter(text[i]) {
            return i;
        }
    }
    text.len()
}

// The first field from `at` on.
pub fn field_at(text: &[u8], at: usize) -> Field
    requires { at ≤ length text.now }
    ensures { result ≡ field_at text.now at }
{
    let start = field_start(text, at);
    let end = field_end(text, start);
    Field { start, end }
}

// Whether there is no such field.
pub fn is_missing(f: Field) -> bool
    ensures { result ≡ is_missing f }
{
    f.start == f.end
}

// The characters of a field.
pub fn word(text: &[u8], f: Field) -> &[u8]
    requires { (f.start ≤ f.end) × (f.end ≤ length text.now) }
    ensures { result.now ≡ (word_in text.now f).chars }
{
    let start = f.start;
    let end = f.end;
    &text[start..end]
}

// ---- words as numbers

// A letter as a number from 1 to 26, small ones and capitals alike; 31 for every other character.
fn letter(c: u8) -> u64
    ensures { result ≡ letter_of c }
{
    match c {
        b'A'..=b'Z' => u64::from(c - b'A' + 1),
        b'a'..=b'z' => u64::from(c - b'a' + 1),
        _ => 31,
    }
}

// A word's first ten characters as one number, five bits each, so that it is compared at once; and where the word ends.
#[derive(Clone, Copy)]
struct Keyed {
    key: u64,
    end: usize,
}

// 32 to the tenth: the unit of an eleventh character.
const ELEVENTH: u64 = 1125899906842624;

// The word that stands at `at`, in the one scan that finds its end.
fn key_at(text: &[u8], at: usize) -> Keyed
    requires { at ≤ length text.now }
    ensures { result ≡ keyed_at text.now at }
{
    let mut key = 0u64;
    let mut unit = 1u64;
    for i in at..text.len() {
        let c = text[i];
        if is_delimiter(c) {
            return Keyed { key, end: i };
        }
        if unit < ELEVENTH {
            key += letter(c) * unit;
            unit *= 32;
        }
    }
    Keyed {
        key,
        end: text.len(),
    }
}

// ---- keywords, each by the number of its name

const IDENT: u64 = 21435529;

const CLEAR: u64 = 18912643;

const PATCH: u64 = 8507440;

const CUE: u64 = 5795;

const GROUP: u64 = 17481287;

const SUB: u64 = 2739;

const CHAN: u64 = 460035;

const UP: u64 = 533;

const DOWN: u64 = 482788;

const FOLLOWON: u64 = 497930351078;

const LINK: u64 = 375084;

const ENDDATA: u64 = 1746014661;

const MANUFACTURER: u64 = 657098898323501;

const CONSOLE: u64 = 5787728355;

const SET: u64 = 20659;

const TEXT: u64 = 680116;

const PART: u64 = 673840;

const ALL: u64 = 12673;

const CUES: u64 = 628387;

const GROUPS: u64 = 655015495;

const SUBMASTERS: u64 = 688488191527603;

fn keyword_by(k: u64) -> Keyword
    ensures { result ≡ meaning_by keyword_rows Keyword.Unknown k }
{
    match k {
        IDENT => Keyword::Ident,
        CLEAR => Keyword::Clear,
        PATCH => Keyword::Patch,
        CUE => Keyword::Cue,
        GROUP => Keyword::Group,
        SUB => Keyword::Sub,
        CHAN => Keyword::Chan,
        UP => Keyword::Up,
        DOWN => Keyword::Down,
        FOLLOWON => Keyword::Followon,
        LINK => Keyword::Link,
        ENDDATA => Keyword::Enddata,
        MANUFACTURER => Keyword::Manufacturer,
        CONSOLE => Keyword::Console,
        SET => Keyword::Set,
        TEXT => Keyword::Text,
        PART => Keyword::Part,
        _ => Keyword::Unknown,
    }
}

fn item_by(k: u64) -> Item
    ensures { result ≡ meaning_by item_rows Item.Other k }
{
    match k {
        ALL => Item::All,
        CUES => Item::Cues,
        GROUPS => Item::Groups,
        PATCH => Item::Patch,
        SUBMASTERS => Item::Subs,
        _ => Item::Other,
    }
}

// What a keyword is, and where it ends.
#[derive(Clone, Copy)]
pub struct Said {
    pub keyword: Keyword,
    pub end: usize,
}

// What a CLEAR item is, and where it ends.
#[derive(Clone, Copy)]
pub struct SaidItem {
    pub item: Item,
    pub end: usize,
}

// Whether a field that goes up to a place ends there.
pub fn ends(text: &[u8], at: usize) -> bool
    ensures { result ≡ ends_at text.now at }
{
    at >= text.len() || is_delimiter(text[at])
}

// Whether CHAN stands at `at` in capitals: so are most keywords of a show told, and no number is made.
fn is_chan(text: &[u8], at: usize) -> bool
    requires { at ≤ length text.now }
    ensures { result ≡ is_chan text.now at }
{
    if text.len() - at < 4 {
        return false;
    }
    if text[at] != b'C' {
        return false;
    }
    if text[at + 1] != b'H' {
        return false;
    }
    if text[at + 2] != b'A' {
        return false;
    }
    if text[at + 3] != b'N' {
        return false;
    }
    ends(text, at + 4)
}

// A word by its first two characters and its number: of a `$` keyword only the second character is looked at.
fn keyword_of(first: u8, second: u8, k: u64) -> Keyword
    ensures { result ≡ keyword_by first second k }
{
    match (first, second) {
        (DOLLAR, DOLLAR) => Keyword::Comment,
        (DOLLAR, _) => Keyword::Local,
        _ => keyword_by(k),
    }
}

fn item_of(first: u8, k: u64) -> Item
    ensures { result ≡ item_by first k }
{
    match first {
        DOLLAR => Item::Local,
        _ => item_by(k),
    }
}

// The keyword that stands at `at`. In line in the walk of either load, where every record comes by.
#[inline(always)]
pub fn keyword_at(text: &[u8], at: usize) -> Said
    requires { at < length text.now }
    ensures { result ≡ said_at text.now at }
{
    if is_chan(text, at) {
        return Said {
            keyword: Keyword::Chan,
            end: at + 4,
        };
    }
    let w = key_at(text, at);
    Said {
        keyword: keyword_of(byte(text, at), byte(text, at + 1), w.key),
        end: w.end,
    }
}

// The same, for a load with translation, which asks a second time. It is a function of its own since `keyword_at` is in line wherever it is called.
pub fn keyword_again(text: &[u8], at: usize) -> Said
    requires { at < length text.now }
    ensures { result ≡ said_at text.now at }
{
    let w = key_at(text, at);
    Said {
        keyword: keyword_of(byte(text, at), byte(text, at + 1), w.key),
        end: w.end,
    }
}

// The CLEAR item that stands at `at`.
pub fn item_at(text: &[u8], at: usize) -> SaidItem
    requires { at ≤ length text.now }
    ensures { result ≡ said_item_at text.now at }
{
    let w = key_at(text, at);
    SaidItem {
        item: item_of(byte(text, at), w.key),
        end: w.end,
    }
}
