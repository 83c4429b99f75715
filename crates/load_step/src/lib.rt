// One record's step of the load: what its keyword asks for, done to the store (paper 01, "Keywords and conditions").
#![tactic(auto)]

ghost use Rattle.std.specs.Prelude.{◌≡◌, true, ◌&&◌, ◌≤◌};
ghost use Rattle.store_desk.specs.Name.{supported, ok_name};
ghost use Rattle.text_fields.specs.Words.{words_of, head_of};
ghost use Rattle.text_fields.specs.Places.{words_from};
ghost use Rattle.value.specs.Field.{version_of};
ghost use Rattle.store_code.specs.Fits.{Fitting};
ghost use Rattle.load.specs.Ask.{name, opens, change_ask, obeyed_ask, secondary_ask, patch_ask, ident_outcome, family_of};
ghost use Rattle.load.specs.Anew.{asks_link, family_ask_in, family_heard, fields_heard};
ghost use Rattle.load.specs.Fits.{most_records, named_in, primary_ask_in, secondary_ask_in, basic_ask_in, text_step};
ghost use Rattle.load.specs.Condition.{ident_mismatch};
ghost use Rattle.load.specs.Item.{blame};
ghost use Rattle.load.specs.Step.{nothing_open, acted};
ghost use Rattle.load_naming.specs.Line.{Line};
ghost use Rattle.load_items.specs.Done.{most_faults};
ghost use Rattle.load_held.specs.Held.{HeldReady, Stepping, Room, stepping, stepped_of, stepping_all, stepped_all};
ghost use Rattle.load_held.specs.Parts.{open_name, IsOpen, keyword_in, resting as resting_as, ended_as, doing, doing_all, did_of, did_all};
ghost use Rattle.load_hear.specs.Naming.{heard_by};
ghost use Rattle.load_step.specs.Parts.{has_items, ReadingFits};

use load::{Basic, Family, Fault, Open, Outcome, Secondary, State};
use load_hear::Naming;
use load_held::{Did, Held, Stepped, answered, clear, ended, resting, with_held};
use store::Edit;
use store_desk::{Desk, Key, Kind};
use text_fields::Keyword;
use value::Version;

// What is `inline(always)` below is called by the walk of either load. Each load has a walk of its own, made for its naming; with these calls in line the
// largest desk's sparse show is loaded in 23.46 million instructions, and else in 23.96.

const IDENT_MISMATCH: u32 = 99;

const UNKNOWN: u32 = 151;

const WRONG_SECONDARY: u32 = 152;

const BAD_PATCH_PAGE: u32 = 231;

// The version that is read.
const MAJOR: u32 = 3;

const MINOR: u32 = 0;

// ---- primaries

// A refused primary starts skipping, and closes what was open.
fn refused(fault: Fault) -> Stepped
    ensures { result ≡ ended_as (resting_as Open.Skipping) (Outcome.Dropped fault) }
{
    ended(resting(Open::Skipping), Outcome::Dropped(fault))
}

#[inline(always)]
fn opened(desk: Desk, kind: Kind, key: Key, store: &mut [u8]) -> Stepped
    requires fitting { Fitting desk store.old }
    requires key_value { ok_name desk (name kind key) ≡ true }
    ensures { stepping result store.new ≡ stepped_of desk (acted desk nothing_open store.old (opens kind key)) }
{
    let Some(slot) = store_code::start(desk, store, kind, key) else {
        return refused(load::blameless(load_naming::full(kind)));
    };
    let state = State {
        open: Open::Memory(kind),
        key,
    };
    ended(Held { state, slot }, Outcome::Obeyed)
}

// A primary's name: as its fields have it, or the next one.
fn name_in<N: Naming>(
    desk: Desk,
    book: &N,
    kind: Kind,
    text: &[u8],
    at: usize,
) -> Result<Key, Fault>
    requires kind_supported { supported desk kind ≡ true }
    requires counts_fit { N.within book.now most_records }
    requires line { Line text.now at }
    ensures { result ≡ named_in desk (N.numbers book.now) kind (words_from text.now at) }
{
    if N::ANEW {
        load_naming::next_name(desk, book.numbers(), kind, text, at)
    } else {
        load_naming::name_at(desk, kind, text, at)
    }
}

// Support, then number, page, room.
fn primary<N: Naming>(
    desk: Desk,
    book: &N,
    kind: Kind,
    text: &[u8],
    at: usize,
    store: &mut [u8],
) -> Stepped
    requires fitting { Fitting desk store.old }
    requires counts_fit { N.within book.now most_records }
    requires line { Line text.now at }
    ensures { stepping result store.new ≡ stepped_of desk (acted desk nothing_open store.old (primary_ask_in desk (N.numbers book.now) kind (keyword_in text.now) (words_from text.now at))) }
{
    if !store_desk::supports(desk, kind) {
        return refused(load::blamed_at(text, 0, load_naming::unsupported(kind)));
    }
    match name_in(desk, book, kind, text, at) {
        Ok(key) => opened(desk, kind, key, store),
        Err(fault) => refused(fault),
    }
}

// ---- secondaries

// UP, DOWN, FOLLOWON, LINK.
fn changed(desk: Desk, held: Held, change: Result<Edit, Fault>, store: &mut [u8]) -> Did
    requires fitting { Fitting desk store.old }
    requires held_ready { HeldReady desk store.old held }
    requires fact { IsOpen held.state.«open» }
    requires reading_fits { ReadingFits desk change }
    ensures { doing result store.new ≡ did_of (acted desk held.state store.old (change_ask (open_name held.state) change)) }
{
    match change {
        Err(fault) => answered(Outcome::Dropped(fault)),
        Ok(e) => {
            store_code::edit(desk, store, held.slot, e);
            answered(Outcome::Obeyed)
        }
    }
}

fn chan(desk: Desk, held: Held, text: &[u8], at: usize, store: &mut [u8], faults: &mut [u32]) -> Did
    requires fitting { Fitting desk store.old }
    requires line { Line text.now at }
    requires held_ready { HeldReady desk store.old held }
    requires fact { IsOpen held.state.«open» }
    requires room { Room faults.old }
    ensures { doing_all result store.new faults.new ≡ did_all (acted desk held.state store.old (obeyed_ask desk (open_name held.state) Secondary.Chan (words_from text.now at))) faults.old }
{
    let faults = load_items::take_pairs(desk, held.slot, text, at, store, faults);
    Did {
        outcome: Outcome::Obeyed,
        faults,
    }
}

// CHAN has items, the others times or a link.
#[tactic(auto, unfolding(crate::specs::Parts::has_items))]
fn has_items(e: Secondary) -> bool
    ensures { result ≡ has_items e }
{
    matches!(e, Secondary::Chan)
}

#[inline(always)]
fn obeyed(
    desk: Desk,
    held: Held,
    e: Secondary,
    text: &[u8],
    at: usize,
    store: &mut [u8],
    faults: &mut [u32],
) -> Did
    requires fitting { Fitting desk store.old }
    requires line { Line text.now at }
    requires held_ready { HeldReady desk store.old held }
    requires fact { IsOpen held.state.«open» }
    requires room { Room faults.old }
    ensures { doing_all result store.new faults.new ≡ did_all (acted desk held.state store.old (obeyed_ask desk (open_name held.state) e (words_from text.now at))) faults.old }
{
    if has_items(e) {
        return chan(desk, held, text, at, store, faults);
    }
    changed(desk, held, load_naming::change_at(e, text, at), store)
}

// With nothing open, or a memory that it does not apply to, a secondary is wrong; while skipping it is passed silently.
#[inline(always)]
fn secondary(
    desk: Desk,
    held: Held,
    e: Secondary,
    text: &[u8],
    at: usize,
    store: &mut [u8],
    faults: &mut [u32],
) -> Did
    requires fitting { Fitting desk store.old }
    requires line { Line text.now at }
    requires held_ready { HeldReady desk store.old held }
    requires room { Room faults.old }
    ensures { doing_all result store.new faults.new ≡ did_all (acted desk held.state store.old (secondary_ask desk held.state.key held.state.«open» e (keyword_in text.now) (words_from text.now at))) faults.old }
{
    match held.state.open {
        Open::Memory(kind) if load_naming::augments(kind, e) => {
            obeyed(desk, held, e, text, at, store, faults)
        }
        Open::Skipping => answered(Outcome::Passed),
        _ => answered(Outcome::Dropped(load::blamed_at(text, 0, WRONG_SECONDARY))),
    }
}

// A LINK of an open cue.
fn asks_link(open: Open, e: Secondary) -> bool
    ensures { result ≡ asks_link «open» e }
{
    match open {
        Open::Memory(kind) => store_code::has_link(kind) && load_naming::is_link(e),
        Open::Nothing | Open::Skipping => false,
    }
}

// In a load with translation a LINK of an open cue is obeyed, whatever it asks for.
fn augmented<N: Naming>(
    desk: Desk,
    held: Held,
    e: Secondary,
    text: &[u8],
    at: usize,
    store: &mut [u8],
    faults: &mut [u32],
    book: &mut N,
) -> Did
    requires fitting { Fitting desk store.old }
    requires line { Line text.now at }
    requires held_ready { HeldReady desk store.old held }
    requires room { Room faults.old }
    ensures faults_after { doing_all result store.new faults.new ≡ did_all (acted desk held.state store.old (secondary_ask_in N.ANEW desk held.state e (keyword_in text.now) (words_from text.now at))) faults.old }
    ensures book_after { book.new ≡ N.after book.old (heard_by N.ANEW (family_heard (Family.Augments e) (words_from text.now at) result.outcome)) held.slot }
{
    let anew = N::ANEW;
    if anew && asks_link(held.state.open, e) {
        book.note_link(held.slot, load_naming::borne_at(text, at) + 1);
        return answered(Outcome::Obeyed);
    }
    secondary(desk, held, e, text, at, store, faults)
}

// ---- PATCH, IDENT

#[inline(always)]
fn patch(desk: Desk, text: &[u8], at: usize, store: &mut [u8], faults: &mut [u32]) -> Did
    requires fitting { Fitting desk store.old }
    requires line { Line text.now at }
    requires room { Room faults.old }
    ensures { doing_all result store.new faults.new ≡ did_all (acted desk nothing_open store.old (patch_ask desk (words_from text.now at))) faults.old }
{
    let f = text_fields::field_at(text, at);
    let Some(page) = value::read_page(text_fields::word(text, f), desk.patch_pages) else {
        return answered(Outcome::Dropped(load::blamed(f, BAD_PATCH_PAGE)));
    };
    let faults = load_items::take_triples(desk, page, text, f.end, store, faults);
    Did {
        outcome: Outcome::Obeyed,
        faults,
    }
}

#[inline(always)]
fn ident(text: &[u8], at: usize) -> Outcome
    requires { Line text.now at }
    ensures { result ≡ ident_outcome (head_of (words_from text.now at)) (version_of (head_of (words_from text.now at)).chars) }
{
    match load_naming::version_at(text, at) {
        Some(v) if v.major == MAJOR && v.minor == MINOR => Outcome::Obeyed,
        _ => Outcome::Stopped(load::blamed_at(text, at, IDENT_MISMATCH)),
    }
}

// ---- the step

#[inline(always)]
fn obey_basic(
    desk: Desk,
    held: Held,
    anew: bool,
    b: Basic,
    text: &[u8],
    at: usize,
    store: &mut [u8],
    faults: &mut [u32],
) -> Stepped
    requires fitting { Fitting desk store.old }
    requires line { Line text.now at }
    requires held_ready { HeldReady desk store.old held }
    requires room { Room faults.old }
    ensures { stepping_all result store.new faults.new ≡ stepped_all desk (acted desk held.state store.old (basic_ask_in anew desk b (keyword_in text.now) (words_from text.now at))) faults.old }
{
    match b {
        Basic::Ident => ended(held, ident(text, at)),
        Basic::Clear => clear(desk, held, anew, text, at, store),
        Basic::Patch => with_held(held, patch(desk, text, at, store, faults)),
        Basic::Enddata => ended(held, Outcome::Stopped(load::blameless(0))),
        Basic::Passed => ended(held, Outcome::Passed),
        Basic::Local => ended(resting(Open::Skipping), Outcome::Passed),
        Basic::Unknown => ended(held, Outcome::Dropped(load::blamed_at(text, 0, UNKNOWN))),
    }
}

// What the fields behind a keyword ask for.
fn obey<N: Naming>(
    desk: Desk,
    held: Held,
    k: Keyword,
    text: &[u8],
    at: usize,
    store: &mut [u8],
    faults: &mut [u32],
    book: &mut N,
) -> Stepped
    requires fitting { Fitting desk store.old }
    requires counts_fit { N.within book.old most_records }
    requires line { Line text.now at }
    requires held_ready { HeldReady desk store.old held }
    requires room { Room faults.old }
    ensures faults_after { stepping_all result store.new faults.new ≡ stepped_all desk (acted desk held.state store.old (family_ask_in desk (N.numbers book.old) held.state (family_of k) (keyword_in text.now) (words_from text.now at))) faults.old }
    ensures book_after { book.new ≡ N.after book.old (heard_by N.ANEW (family_heard (family_of k) (words_from text.now at) result.outcome)) result.held.slot }
{
    match load_naming::family_of(k) {
        Family::Primary(kind) => {
            let s = primary(desk, book, kind, text, at, store);
            book.note_primary(kind, s.outcome, s.held.slot);
            s
        }
        Family::Augments(e) => {
            let did = augmented(desk, held, e, text, at, store, faults, book);
            with_held(held, did)
        }
        Family::Basic(b) => obey_basic(desk, held, N::ANEW, b, text, at, store, faults),
    }
}

// One record. A record with no field is blank.
pub fn step<N: Naming>(
    desk: Desk,
    held: Held,
    text: &[u8],
    store: &mut [u8],
    faults: &mut [u32],
    book: &mut N,
) -> Stepped
    requires stepping { Stepping desk held text.now store.old }
    requires counts_fit { N.within book.old most_records }
    requires room { Room faults.old }
    ensures faults_after { stepping_all result store.new faults.new ≡ stepped_all desk (text_step desk (N.numbers book.old) held.state (words_of 0 text.now) store.old) faults.old }
    ensures faults_le_most_faults { result.faults ≤ most_faults }
    ensures book_after { book.new ≡ N.after book.old (heard_by N.ANEW (fields_heard (words_of 0 text.now) result.outcome)) result.held.slot }
{
    let start = text_fields::field_start(text, 0);
    if start < text.len() {
        let said = text_fields::keyword_at(text, start);
        return obey(
            desk,
            held,
            said.keyword,
            text,
            said.end,
            store,
            faults,
            book,
        );
    }
    ended(held, Outcome::Blank)
}
