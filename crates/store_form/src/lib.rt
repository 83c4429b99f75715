// Good form of a store (paper 01, "The store"), and where it is broken (paper 02, C-11): a slot out of form by itself (R4a), a slot that
// repeats an earlier one (R4b), a patch entry out of form (R4c).
#![tactic(auto)]

ghost use Rattle.std.specs.Prelude.{◌≡◌, ◌==◌, true, ◌≤◌, ◌<◌, length, count_by};
ghost use Rattle.cells.specs.Search.{nowhere, first_from};
ghost use Rattle.store_desk.specs.Size.{InRange, slots_of, entries_of};
ghost use Rattle.store_desk.specs.Name.{kind_at, ok_name};
ghost use Rattle.store.specs.Slots.{place_of};
ghost use Rattle.store.specs.Form.{is_zero, time_fits, link_fits, values_fit, place_fits, used_fits, slot_fits, patch_fits, entry_fits, bad_slot, repeated_slot, bad_entry, form_of};
ghost use Rattle.store_code.specs.Fits.{Fitting};
ghost use Rattle.store_form.specs.Keys.{most_keys, key_words, kind_start, seen_before, Topped, top_of};

use store::FormError;
use store_desk::{Desk, Key, Kind};
use store_head::{Head, Patch};

// The most cue and group slots.
const MOST_KEYS: usize = 800;

// ---- a slot by itself

// The bits of all bytes joined, and no way out on the way: the loop goes many bytes a step.
fn all_zero(s: &[u8]) -> bool
    ensures { result ≡ is_zero s.now }
{
    s.iter().fold(0, |bits, byte| bits | *byte) == 0
}

// An absent time is zero; one that is there is in its range, and of a kind that can have it.
fn time_fits(can: bool, present: u32, time: u32) -> bool
    ensures { result ≡ time_fits can present time }
{
    if present == 0 {
        time == 0
    } else {
        can && time <= value::TIME_MAX
    }
}

#[tactic(auto, unfolding(store::specs::Form::link_fits))]
fn link_fits(can: bool, h: Head) -> bool
    ensures { result ≡ link_fits can h }
{
    if h.link == 0 {
        h.link_whole == 0 && h.link_fraction == 0
    } else {
        can && store_desk::ok_number(h.link_whole, h.link_fraction)
    }
}

#[tactic(auto, unfolding(store::specs::Form::values_fit))]
fn values_fit(kind: Kind, h: Head) -> bool
    ensures { result ≡ values_fit kind h }
{
    let times = store_code::has_times(kind);
    let link = store_code::has_link(kind);
    time_fits(times, h.up, h.up_fade)
        && time_fits(times, h.up, h.up_delay)
        && time_fits(times, h.down, h.down_fade)
        && time_fits(times, h.down, h.down_delay)
        && time_fits(link, h.followon, h.followon_time)
        && link_fits(link, h)
        && h.rest == 0
}

#[tactic(auto, unfolding(store_desk::specs::Name::kind_at, store_desk::specs::Name::first_slot))]
fn kind_at(desk: Desk, slot: usize) -> Kind
    requires { InRange desk }
    ensures { result ≡ kind_at desk slot }
{
    if slot < store_desk::first_slot(desk, Kind::Group) {
        Kind::Cue
    } else if slot < store_desk::first_slot(desk, Kind::Sub) {
        Kind::Group
    } else {
        Kind::Sub
    }
}

// A submaster's head agrees with its place.
#[tactic(auto, unfolding(store::specs::Form::place_fits))]
fn place_fits(desk: Desk, kind: Kind, slot: usize, key: Key) -> bool
    requires in_range { InRange desk }
    requires key_value { ok_name desk (record { kind = kind; key = key }) ≡ true }
    ensures { result ≡ place_fits desk kind slot key }
{
    match kind {
        Kind::Cue | Kind::Group => true,
        Kind::Sub => slot == store_desk::sub_slot(desk, key),
    }
}

fn used_fits(desk: Desk, slot: usize, h: Head) -> bool
    requires { InRange desk }
    ensures { result ≡ used_fits desk slot h }
{
    let kind = kind_at(desk, slot);
    let key = Key {
        page: h.page,
        whole: h.whole,
        fraction: h.fraction,
    };
    store_desk::ok_name(desk, kind, key) && place_fits(desk, kind, slot, key) && values_fit(kind, h)
}

fn slot_fits(desk: Desk, store: &[u8], slot: usize) -> bool
    requires fitting { Fitting desk store.now }
    requires slot_bound { slot < slots_of desk }
    ensures { result ≡ slot_fits desk store.now slot }
{
    let bytes = store_code::slot_bytes(desk, store, slot);
    let h = store_head::decode(bytes);
    if h.used == 1 {
        used_fits(desk, slot, h)
    } else {
        all_zero(bytes)
    }
}

// The first slot that is out of form by itself.
pub fn bad_slot(desk: Desk, store: &[u8]) -> Option<usize>
    requires { Fitting desk store.now }
    ensures { result ≡ place_of (bad_slot desk store.now) }
{
    (0..desk.slots()).find(|slot| !slot_fits(desk, store, *slot))
}

// ---- a slot that repeats an earlier one

// The key words of cues and groups side by side: each is compared with those before it, and a slot is read once.
fn key_words(desk: Desk, store: &[u8]) -> [u32; MOST_KEYS]
    requires { Fitting desk store.now }
    ensures { result ≡ key_words desk store.now }
{
    let mut words = [0; MOST_KEYS];
    for slot in 0..store_desk::first_slot(desk, Kind::Sub) {
        words[slot] = store_code::word_at(desk, store, slot);
    }
    words
}

// How often a word stands among others; counted to the end by adding, so that the loop goes many words a step (`filter` and `count` take twice the
// time of a look-up where cues stand in no order).
fn count_word(words: &[u32], word: u32) -> u32
    requires { length words.now ≤ most_keys }
    ensures { result ≡ count_by (λ w. w == word) words.now }
{
    words.iter().map(|w| u32::from(*w == word)).sum()
}

#[tactic(auto, unfolding(crate::specs::Keys::kind_start))]
fn kind_start(cues: usize, slot: usize) -> usize
    ensures { result ≡ kind_start cues slot }
{
    if slot < cues { 0 } else { cues }
}

// A word above all those of its kind so far was not seen before: slots that stand in order are not compared.
fn seen_before(cues: usize, words: &[u32; MOST_KEYS], slot: usize, top: u32) -> bool
    requires slot_lt_most_keys { slot < most_keys }
    requires topped { Topped cues words.now slot top }
    ensures { result ≡ seen_before cues words.now slot }
{
    let word = words[slot];
    store_head::USED_WORD <= word
        && word <= top
        && 0 < count_word(&words[kind_start(cues, slot)..slot], word)
}

// The highest word ahead of slot `next`, among those of its kind.
#[tactic(auto, unfolding(crate::specs::Keys::top_of))]
fn top_of(cues: usize, next: usize, top: u32, word: u32) -> u32
    ensures { result ≡ top_of cues next top word }
{
    if next == cues { 0 } else { top.max(word) }
}

fn first_seen(cues: usize, words: &[u32; MOST_KEYS], n: usize) -> Option<usize>
    requires { n ≤ most_keys }
    ensures { result ≡ place_of (first_from (seen_before cues words.now) n 0) }
{
    let mut top = 0;
    for slot in 0..n {
        if seen_before(cues, words, slot, top) {
            return Some(slot);
        }
        top = top_of(cues, slot + 1, top, words[slot]);
    }
    None
}

// The first slot that repeats an earlier one. Where each slot is in form by itself, a submaster cannot: its place tells its name.
pub fn repeated_slot(desk: Desk, store: &[u8]) -> Option<usize>
    requires fitting { Fitting desk store.now }
    requires store_value { bad_slot desk store.now ≡ nowhere }
    ensures { result ≡ place_of (repeated_slot desk store.now) }
{
    let words = key_words(desk, store);
    let cues = store_desk::first_slot(desk, Kind::Group);
    let n = store_desk::first_slot(desk, Kind::Sub);
    first_seen(cues, &words, n)
}

// ---- a patch entry

#[tactic(auto, unfolding(store::specs::Form::patch_fits))]
fn patch_fits(desk: Desk, p: Patch) -> bool
    ensures { result ≡ patch_fits desk p }
{
    p.rest == 0
        && if p.channel == 0 {
            p.level == 0
        } else {
            p.channel <= desk.channels
        }
}

fn entry_fits(desk: Desk, store: &[u8], entry: usize) -> bool
    requires fitting { Fitting desk store.now }
    requires bound { entry < entries_of desk }
    ensures { result ≡ entry_fits desk store.now entry }
{
    let bytes = store_code::entry_bytes(desk, store, entry);
    patch_fits(desk, store_head::decode_patch(bytes))
}

// The first patch entry that is out of form.
pub fn bad_entry(desk: Desk, store: &[u8]) -> Option<usize>
    requires { Fitting desk store.now }
    ensures { result ≡ place_of (bad_entry desk store.now) }
{
    (0..desk.entries()).find(|entry| !entry_fits(desk, store, *entry))
}

// ---- the test

// The form of a store: each search goes over the whole store before the next.
pub fn form(desk: Desk, store: &[u8]) -> Result<(), FormError>
    requires { Fitting desk store.now }
    ensures { result ≡ form_of desk store.now }
{
    if let Some(slot) = bad_slot(desk, store) {
        return Err(FormError::BadSlot(slot));
    }
    if let Some(slot) = repeated_slot(desk, store) {
        return Err(FormError::Repeated(slot));
    }
    if let Some(entry) = bad_entry(desk, store) {
        return Err(FormError::BadEntry(entry));
    }
    Ok(())
}
