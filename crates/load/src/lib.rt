// What a load knows between records, and what a record comes to (paper 01, "Keywords and conditions"; "Forms for specific places").
#![tactic(auto)]

ghost use Rattle.std.specs.Prelude.{◌≡◌, ◌≤◌, length};
ghost use Rattle.text_records.specs.Received.{longest};
ghost use Rattle.text_fields.specs.Words.{head_of};
ghost use Rattle.text_fields.specs.Places.{words_from};
ghost use Rattle.load.specs.Item.{blame, blame_none};
ghost use Rattle.load.specs.Fits.{blame_field};

use store::Edit;
use store_desk::{Key, Kind};
use text_fields::Field;

// What a secondary record augments: nothing, a memory that is skipped, or an open memory of a kind.
#[derive(Clone, Copy)]
pub enum Open {
    Nothing,
    Skipping,
    Memory(Kind),
}

// The load's state: what is open, and the key of the open memory (all zero where none is).
#[derive(Clone, Copy)]
pub struct State {
    pub open: Open,
    pub key: Key,
}

// What is wrong with a record, or with an item of it: the condition that it is reported under, and the place in the record's text, from 1, of
// the field that is blamed (0: none is).
#[derive(Clone, Copy)]
pub struct Fault {
    pub condition: u32,
    pub place: usize,
}

// No field is blamed.
pub fn blameless(condition: u32) -> Fault
    ensures { result ≡ blame_none condition }
{
    Fault {
        condition,
        place: 0,
    }
}

// A field is blamed; a missing one has no place.
pub fn blamed(f: Field, condition: u32) -> Fault
    requires { f.start ≤ longest }
    ensures { result ≡ blame_field f condition }
{
    if text_fields::is_missing(f) {
        blameless(condition)
    } else {
        Fault {
            condition,
            place: f.start + 1,
        }
    }
}

// The first field from `at` on is blamed: from 0 on the keyword.
pub fn blamed_at(text: &[u8], at: usize, condition: u32) -> Fault
    requires { at ≤ length text.now }
    ensures { result ≡ blame (head_of (words_from text.now at)) condition }
{
    let start = text_fields::field_start(text, at);
    if start < text.len() {
        Fault {
            condition,
            place: start + 1,
        }
    } else {
        blameless(condition)
    }
}

// A record's outcome. Stopped carries condition 0 for ENDDATA, else 91 or 99.
#[derive(Clone, Copy)]
pub enum Outcome {
    Blank,
    Passed,
    Dropped(Fault),
    Obeyed,
    Stopped(Fault),
}

// A secondary keyword that is read (§6.3).
#[derive(Clone, Copy)]
pub enum Secondary {
    Chan,
    Up,
    Down,
    Followon,
    Link,
}

// What a keyword begins: a primary's record, a secondary's, or a basic one.
#[derive(Clone, Copy)]
pub enum Family {
    Primary(Kind),
    Augments(Secondary),
    Basic(Basic),
}

// A basic record: one that is read, passed over, skipped with what follows, or unknown.
#[derive(Clone, Copy)]
pub enum Basic {
    Ident,
    Clear,
    Patch,
    Enddata,
    Passed,
    Local,
    Unknown,
}

// What an item of a record comes to: a channel's level, a dimmer's channel and level, or a fault.
#[derive(Clone, Copy)]
pub enum Entry {
    Level(u32, u8),
    Patch(u32, u32, u8),
    Faulty(Fault),
}

// How a load names its memories: by the numbers that the stream has; or anew, after how many that it accepted of each kind (C-13).
#[derive(Clone, Copy)]
pub struct Numbers {
    pub anew: bool,
    pub cues: u32,
    pub groups: u32,
    pub subs: u32,
}

// What a load with translation hears of a record beside what it asks for: a primary, accepted or refused, or a LINK that was obeyed, with the
// number that it asks for.
#[derive(Clone, Copy)]
pub enum Heard {
    Other,
    Accepted(Kind),
    Refused(Kind),
    Link(u32),
}

// What a load is told as: the count of its reports, stored or not, the four tallies, and the closing number.
#[derive(Clone, Copy)]
pub struct Totals {
    pub reports: u32,
    pub blank: u32,
    pub obeyed: u32,
    pub passed: u32,
    pub dropped: u32,
    pub closing: u32,
}
