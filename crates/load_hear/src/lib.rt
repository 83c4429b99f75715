// How a load names its memories, and what it notes of a record beside what the record asks for: a load with translation keeps a book of how many of each
// kind were accepted, which CUE records were, and which number each cue's LINK asked for (paper 02, C-13); any other load notes nothing.
#![tactic(auto)]

ghost use Rattle.std.specs.Prelude.{◌≡◌, true, false, Bool, [], ℕ, ◌+◌, refl};
ghost use Rattle.load.specs.declared.Family.TheVariants.{Primary};
ghost use Rattle.load.specs.declared.Heard.{Heard};
ghost use Rattle.load.specs.declared.Heard.TheVariants.{Accepted, Refused, Link};
ghost use Rattle.load.specs.declared.Numbers.{Numbers};
ghost use Rattle.load.specs.Anew.{is_obeyed, family_heard};
ghost use Rattle.load.specs.Fits.{most_records};
ghost use Rattle.load_hear.specs.Marks.{marked, is_marked};
ghost use Rattle.load_hear.specs.Naming.{NamingLaws, heard_by};
ghost use Rattle.load_hear.specs.Given.{given_numbers, GivenWithin, given_after, given_laws};
ghost use Rattle.load_hear.specs.Book.{CountsWithin, counted_at, book_numbers, BookWithin, booked_at, new_book};
ghost use Rattle.load_hear.specs.Kept.{book_laws};

use load::{Numbers, Outcome};
use store_desk::Kind;

// How a load names its memories.
pub trait Naming {
    // Whether it numbers them anew, as they are accepted.
    ghost ANEW: { Bool };

    const ANEW: bool;

    // How many of each kind were accepted so far.
    ghost numbers: { Self → Numbers };

    // No count is above so much.
    ghost within: { Self → ℕ → Type 0 };

    // What is noted after a record, by what is heard of it, with the slot of the memory that is open after it.
    ghost after: { Self → Heard → ℕ → Self };

    ghost laws: { NamingLaws ANEW numbers within after };

    fn numbers(&self) -> Numbers
        ensures { result ≡ numbers self.now };

    // A primary, by its outcome, with the slot that it opened.
    fn note_primary(&mut self, kind: Kind, outcome: Outcome, slot: usize)
        requires { within self.old most_records }
        ensures { self.new ≡ after self.old (heard_by ANEW (family_heard (Primary kind) [] outcome)) slot };

    // What the cue in a slot asked for, and 1.
    fn note_link(&mut self, slot: usize, asked: u32)
        ensures { (m : ℕ) → asked ≡ m + 1 → self.new ≡ after self.old (Link m) slot };
}

// ---- under the numbers that the stream has

// Nothing is counted, and nothing noted.
#[derive(Clone, Copy)]
pub struct AsGiven;

impl Naming for AsGiven {
    ghost ANEW = { false };

    const ANEW: bool = false;

    ghost numbers = { given_numbers };

    ghost within = { GivenWithin };

    ghost after = { given_after };

    ghost laws = { given_laws };

    fn numbers(&self) -> Numbers {
        Numbers {
            anew: false,
            cues: 0,
            groups: 0,
            subs: 0,
        }
    }

    fn note_primary(&mut self, _kind: Kind, _outcome: Outcome, _slot: usize) {}

    fn note_link(&mut self, _slot: usize, _asked: u32) {}
}

// ---- anew

// How many cues, groups and submasters were accepted, and how many CUE records there were, accepted or not.
#[derive(Clone, Copy)]
pub struct Counts {
    pub cues: u32,
    pub groups: u32,
    pub subs: u32,
    pub tried: u32,
}

// A mark, one bit, for each CUE record, in their order, set where it was accepted; and for each cue's slot the number that its last LINK asked for, and 1
// (0: none).
#[derive(Drop)]
pub struct Book {
    pub counts: Counts,
    pub marks: [u8; 8192],
    pub asked: [u32; 600],
}

// ---- marks; past their end nothing is set

fn mark(marks: &mut [u8], n: usize)
    ensures { marks.new ≡ marked marks.old n }
{
    let i = n / 8;
    if i < marks.len() {
        marks[i] |= 1 << (n % 8);
    }
}

// Whether the CUE record after n others was accepted.
pub fn is_mark(marks: &[u8], n: usize) -> bool
    ensures { result ≡ is_marked marks.now n }
{
    let i = n / 8;
    i < marks.len() && (marks[i] >> (n % 8)) & 1 == 1
}

// ---- what is noted of a record

impl Book {
    // Nothing was read.
    pub fn new() -> Self
        ensures { result ≡ new_book }
    {
        Book {
            counts: Counts {
                cues: 0,
                groups: 0,
                subs: 0,
                tried: 0,
            },
            marks: [0; 8192],
            asked: [0; 600],
        }
    }

    // An accepted primary uses a number. A CUE that is accepted is marked, and has asked for nothing, whatever its slot held before.
    fn accept(&mut self, kind: Kind, slot: usize)
        requires { BookWithin self.old most_records }
        ensures { self.new ≡ booked_at self.old (Accepted kind) slot }
    {
        match kind {
            Kind::Cue => {
                mark(&mut self.marks, self.counts.tried as usize);
                cells::note(&mut self.asked, slot, 0);
                self.counts.cues += 1;
                self.counts.tried += 1;
            }
            Kind::Group => self.counts.groups += 1,
            Kind::Sub => self.counts.subs += 1,
        }
    }

    // A refused one uses none; a CUE was tried.
    fn refuse(&mut self, kind: Kind)
        requires { CountsWithin self.old.counts most_records }
        ensures { (slot : ℕ) → self.new ≡ booked_at self.old (Refused kind) slot }
    {
        match kind {
            Kind::Cue => self.counts.tried += 1,
            Kind::Group | Kind::Sub => (),
        }
    }
}

// A primary was accepted.
#[tactic(auto, unfolding(load::specs::Anew::is_obeyed))]
fn is_obeyed(outcome: Outcome) -> bool
    ensures { result ≡ is_obeyed outcome }
{
    matches!(outcome, Outcome::Obeyed)
}

impl Naming for Book {
    ghost ANEW = { true };

    const ANEW: bool = true;

    ghost numbers = { book_numbers };

    ghost within = { BookWithin };

    ghost after = { booked_at };

    // A record of which nothing is heard counts for nothing.
    ghost laws = { book_laws (λ c. unfold counted_at in refl) };

    fn numbers(&self) -> Numbers {
        Numbers {
            anew: true,
            cues: self.counts.cues,
            groups: self.counts.groups,
            subs: self.counts.subs,
        }
    }

    fn note_primary(&mut self, kind: Kind, outcome: Outcome, slot: usize) {
        if is_obeyed(outcome) {
            self.accept(kind, slot)
        } else {
            self.refuse(kind)
        }
    }

    // Past the last slot nothing is noted.
    fn note_link(&mut self, slot: usize, asked: u32) {
        cells::note(&mut self.asked, slot, asked)
    }
}
