// What is open while a stream is loaded, with its slot; how a step answers; and CLEAR, which closes a memory that it removes (paper 01,
// "Keywords and conditions").
#![tactic(auto)]

ghost use Rattle.std.specs.Prelude.{◌≡◌, cond, [], ◌≤◌, length};
ghost use Rattle.store_desk.specs.Name.{KeyFits};
ghost use Rattle.text_fields.specs.Places.{words_from};
ghost use Rattle.store_code.specs.Fits.{Fitting};
ghost use Rattle.load.specs.Ask.{kind_ask, dimmers_ask, kind_wipes, dimmer_wipes, all_wipes, all_ask};
ghost use Rattle.load.specs.Fits.{clear_ask_in};
ghost use Rattle.load.specs.Step.{ended as ended_step, settle, wiped, acted};
ghost use Rattle.load_naming.specs.Line.{Line};
ghost use Rattle.load_held.specs.Held.{held_of, HeldReady, stepping, stepped_of};
ghost use Rattle.load_held.specs.Parts.{keyword_in, resting as resting_as, ended_as, did_as, with_held};

use load::{Open, Outcome, State};
use store_desk::{Desk, Key, Kind};
use text_fields::Item;

// What is open, with the slot where the store keeps it (0 where nothing is open).
#[derive(Clone, Copy)]
pub struct Held {
    pub state: State,
    pub slot: usize,
}

// What a record comes to: what is open after it, its outcome, and how many items it dropped.
#[derive(Clone, Copy)]
pub struct Stepped {
    pub held: Held,
    pub outcome: Outcome,
    pub faults: usize,
}

// The same of a record that leaves open what was open.
#[derive(Clone, Copy)]
pub struct Did {
    pub outcome: Outcome,
    pub faults: usize,
}

const BAD_PAGE: u32 = 43;

const UNKNOWN: u32 = 151;

const EVERY_PAGE: u32 = 0;

// ---- answers

pub fn ended(held: Held, outcome: Outcome) -> Stepped
    ensures { result ≡ ended_as held outcome }
{
    Stepped {
        held,
        outcome,
        faults: 0,
    }
}

pub fn answered(outcome: Outcome) -> Did
    ensures { result ≡ did_as outcome }
{
    Did { outcome, faults: 0 }
}

pub fn with_held(held: Held, d: Did) -> Stepped
    ensures { result ≡ with_held held d }
{
    Stepped {
        held,
        outcome: d.outcome,
        faults: d.faults,
    }
}

// With no memory open.
pub fn resting(open: Open) -> Held
    ensures { result ≡ resting_as «open» }
{
    let key = Key {
        page: 0,
        whole: 0,
        fraction: 0,
    };
    let state = State { open, key };
    Held { state, slot: 0 }
}

// ---- CLEAR

// What is still open: a memory that the store does not keep any more is closed.
fn settled(desk: Desk, state: State, store: &[u8]) -> Held
    requires fitting { Fitting desk store.now }
    requires key_fits { KeyFits state.key }
    ensures { result ≡ held_of desk store.now (settle desk state store.now) }
{
    match state.open {
        Open::Nothing | Open::Skipping => Held { state, slot: 0 },
        Open::Memory(kind) => match store_code::find(desk, store, kind, state.key) {
            Some(slot) => Held { state, slot },
            None => resting(Open::Nothing),
        },
    }
}

fn cleared(desk: Desk, state: State, store: &[u8]) -> Stepped
    requires fitting { Fitting desk store.now }
    requires key_fits { KeyFits state.key }
    ensures { stepping result store.now ≡ stepped_of desk (ended_step (settle desk state store.now) Outcome.Obeyed store.now) }
{
    ended(settled(desk, state, store), Outcome::Obeyed)
}

// Clearing an unsupported kind does nothing, and its page is not looked at.
fn clear_kind(
    desk: Desk,
    held: Held,
    kind: Kind,
    text: &[u8],
    at: usize,
    store: &mut [u8],
) -> Stepped
    requires fitting { Fitting desk store.old }
    requires line { Line text.now at }
    requires held_ready { HeldReady desk store.old held }
    ensures { stepping result store.new ≡ stepped_of desk (acted desk held.state store.old (kind_ask desk kind (words_from text.now at))) }
{
    if !store_desk::supports(desk, kind) {
        return ended(held, Outcome::Obeyed);
    }
    let Some(page) = load_naming::page_at(EVERY_PAGE, store_desk::pages(desk, kind), text, at)
    else {
        return ended(held, Outcome::Dropped(load::blamed_at(text, at, BAD_PAGE)));
    };
    store_code::clear_kind(desk, store, kind, page);
    cleared(desk, held.state, store)
}

fn clear_patch(desk: Desk, held: Held, text: &[u8], at: usize, store: &mut [u8]) -> Stepped
    requires fitting { Fitting desk store.old }
    requires line { Line text.now at }
    requires held_ready { HeldReady desk store.old held }
    ensures { stepping result store.new ≡ stepped_of desk (acted desk held.state store.old (dimmers_ask desk (words_from text.now at))) }
{
    let Some(page) = load_naming::page_at(EVERY_PAGE, desk.patch_pages, text, at) else {
        return ended(held, Outcome::Dropped(load::blamed_at(text, at, BAD_PAGE)));
    };
    store_code::clear_patch(desk, store, page);
    cleared(desk, held.state, store)
}

// A table without that page is left alone.
fn clear_table(desk: Desk, kind: Kind, page: u32, store: &mut [u8])
    requires { Fitting desk store.old }
    ensures { store.new ≡ wiped desk (kind_wipes desk page kind) store.old }
{
    if page <= load_naming::table_pages(desk, kind) {
        store_code::clear_kind(desk, store, kind, page);
    }
}

fn clear_dimmers(desk: Desk, page: u32, store: &mut [u8])
    requires { Fitting desk store.old }
    ensures { store.new ≡ wiped desk (dimmer_wipes desk page) store.old }
{
    if page <= desk.patch_pages {
        store_code::clear_patch(desk, store, page);
    }
}

fn clear_tables(desk: Desk, page: u32, store: &mut [u8])
    requires { Fitting desk store.old }
    ensures { store.new ≡ wiped desk (all_wipes desk page) store.old }
{
    clear_dimmers(desk, page, store);
    clear_table(desk, Kind::Cue, page, store);
    clear_table(desk, Kind::Group, page, store);
    clear_table(desk, Kind::Sub, page, store);
}

fn clear_all(desk: Desk, held: Held, text: &[u8], at: usize, store: &mut [u8]) -> Stepped
    requires fitting { Fitting desk store.old }
    requires line { Line text.now at }
    requires held_ready { HeldReady desk store.old held }
    ensures { stepping result store.new ≡ stepped_of desk (acted desk held.state store.old (all_ask desk (words_from text.now at))) }
{
    let Some(page) = load_naming::page_at(EVERY_PAGE, load_naming::most_pages(desk), text, at)
    else {
        return ended(held, Outcome::Dropped(load::blamed_at(text, at, BAD_PAGE)));
    };
    clear_tables(desk, page, store);
    cleared(desk, held.state, store)
}

// Where CLEAR looks for a page: behind its item, or nowhere where pages are ignored.
fn page_place(text: &[u8], end: usize, every: bool) -> usize
    requires { end ≤ length text.now }
    ensures result_value { words_from text.now result ≡ cond every [] (words_from text.now end) }
    ensures upper_bound { result ≤ length text.now }
{
    if every { text.len() } else { end }
}

// `every`: whatever page it names, every page is cleared. In line in the walk of either load: for a call there, the desk and what is open are copied
// ahead of every record.
#[inline(always)]
pub fn clear(
    desk: Desk,
    held: Held,
    every: bool,
    text: &[u8],
    at: usize,
    store: &mut [u8],
) -> Stepped
    requires fitting { Fitting desk store.old }
    requires line { Line text.now at }
    requires held_ready { HeldReady desk store.old held }
    ensures { stepping result store.new ≡ stepped_of desk (acted desk held.state store.old (clear_ask_in every desk (keyword_in text.now) (words_from text.now at))) }
{
    let said = text_fields::item_at(text, text_fields::field_start(text, at));
    let end = page_place(text, said.end, every);
    match said.item {
        Item::All => clear_all(desk, held, text, end, store),
        Item::Cues => clear_kind(desk, held, Kind::Cue, text, end, store),
        Item::Groups => clear_kind(desk, held, Kind::Group, text, end, store),
        Item::Patch => clear_patch(desk, held, text, end, store),
        Item::Subs => clear_kind(desk, held, Kind::Sub, text, end, store),
        Item::Local => ended(held, Outcome::Obeyed),
        Item::Other => ended(held, Outcome::Dropped(load::blamed_at(text, 0, UNKNOWN))),
    }
}
