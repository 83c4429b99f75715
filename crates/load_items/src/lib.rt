// CHAN's pairs and PATCH's triples, item by item (paper 01, "Keywords and conditions", CHAN and PATCH): each is a level to set, a
// dimmer to patch, or a fault, and the items after it are read all the same.
#![tactic(auto)]

ghost use Rattle.std.specs.Prelude.{◌≡◌, ◌≤◌, ◌<◌, length};
ghost use Rattle.text_fields.specs.Places.{words_from};
ghost use Rattle.text_fields.specs.Tables.{Ended};
ghost use Rattle.store_code.specs.Fits.{Fitting};
ghost use Rattle.load.specs.Item.{pairs_of, triples_of};
ghost use Rattle.load.specs.Fits.{EntryFits};
ghost use Rattle.load_items.specs.Done.{entries_in, done_at, noted, noted_in};
ghost use Rattle.load_items.specs.Take.{AimFits, ItemsReady, Starting, taken_as, taken_of};
ghost use Rattle.load_items.specs.Each.{On, PlaceFits, wrong_at, ranged_at, unlit_at, lit_by, lit_at, between_at, entry_of, item_at};

use load::Entry;
use store::Edit;
use store_desk::Desk;
use value_level::LevelError;

// How many fields an item has.
#[derive(Clone, Copy)]
enum Group {
    Pair,
    Triple,
}

// Where items go: the slot of the open memory, or a patch page.
#[derive(Clone, Copy)]
pub enum Aim {
    Slot(usize),
    Page(u32),
}

const MALFORMED_INTEGER: u32 = 171;

const BAD_HEX: u32 = 172;

const BAD_CHANNEL: u32 = 201;

const BAD_DIMMER: u32 = 203;

const BAD_PERCENT: u32 = 221;

// A fault in one word of the lent list: its place above the condition's 14 bits.
const CONDITION_SPAN: u32 = 16384;

// ---- a field, read in the scan that finds its end

// What a field comes to, and where it ends: a value, or the condition that it is reported under (0: none).
#[derive(Clone, Copy)]
struct Read {
    value: u32,
    condition: u32,
    end: usize,
}

// The rest of the field is passed over.
fn wrong(text: &[u8], at: usize, condition: u32) -> Read
    requires { at ≤ length text.now }
    ensures { result ≡ wrong_at text.now at condition }
{
    Read {
        value: 0,
        condition,
        end: text_fields::field_end(text, at),
    }
}

// A channel or dimmer, from 1 to its limit.
fn ranged(text: &[u8], at: usize, limit: u32, beyond: u32) -> Read
    requires { at ≤ length text.now }
    ensures { result ≡ ranged_at limit beyond text.now at }
{
    let d = value::digits_at(text, at);
    let end = d.end;
    let value = d.value;
    if !text_fields::ends(text, end) || at == end {
        return wrong(text, end, MALFORMED_INTEGER);
    }
    if (1..=limit).contains(&value) {
        Read {
            value,
            condition: 0,
            end,
        }
    } else {
        Read {
            value: 0,
            condition: beyond,
            end,
        }
    }
}

// What a level comes to, and where it ends.
#[derive(Clone, Copy)]
struct Lit {
    level: u8,
    condition: u32,
    end: usize,
}

// A level that goes on with what no level has is malformed in the format that it begins with.
#[tactic(auto, unfolding(crate::specs::Each::lit_by))]
fn unlit(text: &[u8], at: usize, end: usize) -> Lit
    requires { end ≤ length text.now }
    ensures { result ≡ unlit_at text.now at end }
{
    Lit {
        level: 0,
        condition: if value_level::hex_mark(cells::byte(text, at)) {
            BAD_HEX
        } else {
            BAD_PERCENT
        },
        end: text_fields::field_end(text, end),
    }
}

#[tactic(auto, unfolding(crate::specs::Each::lit_by))]
fn lit_by(level: Result<u8, LevelError>, end: usize) -> Lit
    ensures { result ≡ lit_by level end }
{
    match level {
        Err(LevelError::NotPercent) => Lit {
            level: 0,
            condition: BAD_PERCENT,
            end,
        },
        Err(LevelError::NotHex) => Lit {
            level: 0,
            condition: BAD_HEX,
            end,
        },
        Ok(v) => Lit {
            level: v,
            condition: 0,
            end,
        },
    }
}

fn level(text: &[u8], at: usize) -> Lit
    requires { at ≤ length text.now }
    ensures { result ≡ lit_at text.now at }
{
    let l = value_level::level_at(text, at);
    let end = l.end;
    let level = l.level;
    if text_fields::ends(text, end) {
        lit_by(level, end)
    } else {
        unlit(text, at, end)
    }
}

// ---- an item

// An item, and the place where its last field ends.
#[derive(Clone, Copy)]
struct Item {
    entry: Entry,
    end: usize,
}

// PATCH has a dimmer between channel and level; CHAN has nothing there.
#[tactic(auto, unfolding(crate::specs::Each::between_at))]
fn between(desk: Desk, group: Group, text: &[u8], at: usize) -> Read
    requires { Ended text.now at }
    ensures { result ≡ between_at desk group text.now at }
{
    match group {
        Group::Pair => Read {
            value: 0,
            condition: 0,
            end: at,
        },
        Group::Triple => ranged(
            text,
            text_fields::next_field(text, at),
            desk.dimmers,
            BAD_DIMMER,
        ),
    }
}

#[tactic(auto, unfolding(crate::specs::Each::entry_of))]
fn entry(group: Group, channel: u32, dimmer: u32, level: u8) -> Entry
    ensures { result ≡ entry_of group channel dimmer level }
{
    match group {
        Group::Pair => Entry::Level(channel, level),
        Group::Triple => Entry::Patch(channel, dimmer, level),
    }
}

// The item whose first field starts at `at`: the first field at fault is the one that is blamed.
fn item_at(desk: Desk, group: Group, text: &[u8], at: usize) -> Item
    requires { On text.now at }
    ensures { result ≡ item_at desk group text.now at }
{
    let c = ranged(text, at, desk.channels, BAD_CHANNEL);
    let second = c.end;
    let m = between(desk, group, text, second);
    let third = m.end;
    let l = level(text, text_fields::next_field(text, third));
    let end = l.end;
    if c.condition != 0 {
        return Item {
            entry: Entry::Faulty(load::blamed_at(text, at, c.condition)),
            end,
        };
    }
    if m.condition != 0 {
        return Item {
            entry: Entry::Faulty(load::blamed_at(text, second, m.condition)),
            end,
        };
    }
    if l.condition != 0 {
        return Item {
            entry: Entry::Faulty(load::blamed_at(text, third, l.condition)),
            end,
        };
    }
    Item {
        entry: entry(group, c.value, m.value, l.level),
        end,
    }
}

// ---- what it does

// A level into a slot, a dimmer onto a page; an item at fault does nothing.
#[tactic(auto, unfolding(crate::specs::Done::done_at))]
fn apply(desk: Desk, store: &mut [u8], aim: Aim, e: Entry)
    requires fitting { Fitting desk store.old }
    requires aim_fits { AimFits desk aim }
    requires entry_fits { EntryFits desk e }
    ensures { store.new ≡ done_at desk aim store.old e }
{
    match (aim, e) {
        (Aim::Slot(slot), Entry::Level(channel, v)) => {
            store_code::edit(desk, store, slot, Edit::Level(channel, v))
        }
        (Aim::Page(page), Entry::Patch(channel, dimmer, v)) => {
            store_code::patch_dimmer(desk, store, page, dimmer, channel, v)
        }
        _ => {}
    }
}

// An item's fault goes behind the n before it; answers how many there are then.
#[tactic(auto, unfolding(crate::specs::Done::noted_in))]
fn note(faults: &mut [u32], n: usize, e: Entry) -> usize
    requires n_in_bounds { n < length faults.old }
    requires place_fits { PlaceFits e }
    ensures { noted result faults.new ≡ noted_in n faults.old e }
{
    let Entry::Faulty(f) = e else {
        return n;
    };
    faults[n] = (f.place as u32) * CONDITION_SPAN + f.condition;
    n + 1
}

// The items from the start of a field on, one after the other.
fn take_items(
    desk: Desk,
    group: Group,
    text: &[u8],
    at: usize,
    store: &mut [u8],
    aim: Aim,
    faults: &mut [u32],
) -> usize
    requires items_ready { ItemsReady desk text.now at store.old aim faults.old }
    requires starting { Starting text.now at }
    ensures { taken_as result store.new faults.new ≡ taken_of desk aim store.old faults.old (entries_in group desk (words_from text.now at)) }
{
    let mut n = 0;
    let mut i = at;
    while i < text.len() {
        let item = item_at(desk, group, text, i);
        let e = item.entry;
        apply(desk, &mut *store, aim, e);
        n = note(&mut *faults, n, e);
        i = text_fields::next_field(text, item.end);
    }
    n
}

// CHAN's pairs from `at` on, into the memory in a slot. Their faults go into the lent list; answers how many there are.
pub fn take_pairs(
    desk: Desk,
    slot: usize,
    text: &[u8],
    at: usize,
    store: &mut [u8],
    faults: &mut [u32],
) -> usize
    requires { ItemsReady desk text.now at store.old (Aim.Slot slot) faults.old }
    ensures { taken_as result store.new faults.new ≡ taken_of desk (Aim.Slot slot) store.old faults.old (pairs_of desk (words_from text.now at)) }
{
    let start = text_fields::field_start(text, at);
    if start == text.len() {
        return 0;
    }
    take_items(
        desk,
        Group::Pair,
        text,
        start,
        store,
        Aim::Slot(slot),
        faults,
    )
}

// PATCH's triples from `at` on, onto a page.
pub fn take_triples(
    desk: Desk,
    page: u32,
    text: &[u8],
    at: usize,
    store: &mut [u8],
    faults: &mut [u32],
) -> usize
    requires { ItemsReady desk text.now at store.old (Aim.Page page) faults.old }
    ensures { taken_as result store.new faults.new ≡ taken_of desk (Aim.Page page) store.old faults.old (triples_of desk (words_from text.now at)) }
{
    let start = text_fields::field_start(text, at);
    if start == text.len() {
        return 0;
    }
    take_items(
        desk,
        Group::Triple,
        text,
        start,
        store,
        Aim::Page(page),
        faults,
    )
}
