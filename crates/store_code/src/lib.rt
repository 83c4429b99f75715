// The store's operations on lent bytes (paper 01, "The store"): look-up, start, change, patch, clear, empty.
#![tactic(auto)]

ghost use Rattle.std.specs.Prelude.{◌≡◌, true, cond, ◌++◌, ◌+◌, ◌-◌, ◌*◌, ◌≤◌, ◌<◌, length, replicate};
ghost use Rattle.cells.specs.Put.{put};
ghost use Rattle.cells.specs.Search.{first_from};
ghost use Rattle.store_desk.specs.Size.{Within, InRange, head_length, entry_length_of, slot_length, slots_of, patch_start, entries_of};
ghost use Rattle.store_desk.specs.Name.{first_slot, slots_end, ok_name, KeyFits};
ghost use Rattle.store_head.specs.Layout.{encode_head, decode_head};
ghost use Rattle.store_head.specs.Fits.{page_span, channel_span, HeadFits};
ghost use Rattle.store.specs.Slots.{slot_at, put_slot, entry_at, head_at, place_of, find as find_slot};
ghost use Rattle.store.specs.View.{patched_to};
ghost use Rattle.store.specs.Change.{lowest_unused, new_seat, seat as seat_of, blank_head, blank_slot, edit_head, with_head, edit_slot, edit_at, patched, hits_at, cleared, cleared_patch, emptied};
ghost use Rattle.store.specs.Form.{has_times, has_link};
ghost use Rattle.store.specs.Order.{slot_word};
ghost use Rattle.store_code.specs.Fits.{Fitting, Editing, OnPatch};
ghost use Rattle.store_code.specs.Answer.{name_of, started_as, start_of, LevelsOf, is_word};

use std::ops::Range;
use store::Edit;
use store_desk::{Desk, Key, Kind};
use store_head::{Head, Patch};

// ---- which values a kind can have (§6.3)

// UP and DOWN.
#[tactic(auto, unfolding(store::specs::Form::has_times))]
pub fn has_times(kind: Kind) -> bool
    ensures { result ≡ has_times kind }
{
    matches!(kind, Kind::Cue | Kind::Sub)
}

// FOLLOWON and LINK.
#[tactic(auto, unfolding(store::specs::Form::has_link))]
pub fn has_link(kind: Kind) -> bool
    ensures { result ≡ has_link kind }
{
    matches!(kind, Kind::Cue)
}

// ---- slots and their heads

// Where a slot lies in the store.
fn slot_range(desk: Desk, slot: usize) -> Range<usize>
    requires in_range { InRange desk }
    requires slot_bound { slot < slots_of desk }
    ensures start { result.start ≡ slot * slot_length desk }
    ensures end { result.end ≡ slot * slot_length desk + slot_length desk }
{
    let start = slot * desk.slot_length();
    start..start + desk.slot_length()
}

// The bytes of a slot.
pub fn slot_bytes<'a>(desk: Desk, store: &'a [u8], slot: usize) -> &'a [u8]
    requires fitting { Fitting desk store.now }
    requires slot_bound { slot < slots_of desk }
    ensures { result.now ≡ slot_at desk store.now slot }
{
    &store[slot_range(desk, slot)]
}

// The key of a slot in one number, so that a search reads three bytes of each slot.
pub fn word_at(desk: Desk, store: &[u8], slot: usize) -> u32
    requires fitting { Fitting desk store.now }
    requires slot_bound { slot < slots_of desk }
    ensures { result ≡ slot_word desk store.now slot }
{
    store_head::quick(slot_bytes(desk, store, slot))
}

pub fn head_of(desk: Desk, store: &[u8], slot: usize) -> Head
    requires fitting { Fitting desk store.now }
    requires slot_bound { slot < slots_of desk }
    ensures { result ≡ head_at desk store.now slot }
{
    store_head::decode(slot_bytes(desk, store, slot))
}

// Where a slot's levels begin in the store.
pub fn levels_start(desk: Desk, slot: usize) -> usize
    requires in_range { InRange desk }
    requires slot_bound { slot < slots_of desk }
    ensures { result ≡ slot * slot_length desk + head_length }
{
    slot_range(desk, slot).start + store_desk::HEAD_LENGTH
}

// The very bytes in the store, with no copying.
pub fn levels<'a>(desk: Desk, store: &'a [u8], slot: usize) -> &'a [u8]
    requires fitting { Fitting desk store.now }
    requires slot_bound { slot < slots_of desk }
    ensures { LevelsOf desk store.entry slot result }
{
    &store[levels_start(desk, slot)..slot_range(desk, slot).end]
}

// ---- look-up

// The slots of a kind.
fn slots_of_kind(desk: Desk, kind: Kind) -> Range<usize>
    requires { InRange desk }
    ensures start { result.start ≡ first_slot desk kind }
    ensures end { result.end ≡ slots_end desk kind }
{
    let first = store_desk::first_slot(desk, kind);
    first..first + store_desk::slot_count(desk, kind)
}

// `word_at`, of slots that lie by themselves.
fn word_in(desk: Desk, slots: &[u8], slot: usize) -> u32
    requires in_range { InRange desk }
    requires slot_bound { slot < slots_of desk }
    requires slot_in_bounds { slot * slot_length desk + slot_length desk ≤ length slots.now }
    ensures { result ≡ slot_word desk slots.now slot }
{
    store_head::quick(&slots[slot_range(desk, slot)])
}

// The slot that keeps this memory. The slots of its kind are looked at as a part of the store of their own.
pub fn find(desk: Desk, store: &[u8], kind: Kind, key: Key) -> Option<usize>
    requires fitting { Fitting desk store.now }
    requires key_fits { KeyFits key }
    ensures { result ≡ place_of (find_slot desk store.now (name_of kind key)) }
{
    let wanted = store_head::quick_key(key.page, key.whole, key.fraction);
    let slots = slots_of_kind(desk, kind);
    let length = desk.slot_length();
    let part = &store[slots.start * length..slots.end * length];
    (0..slots.end - slots.start)
        .find(|i| word_in(desk, part, *i) == wanted)
        .map(|i| slots.start + i)
}

// The first slot of a kind that keeps nothing.
fn lowest_unused(desk: Desk, store: &[u8], kind: Kind) -> Option<usize>
    requires { Fitting desk store.now }
    ensures { result ≡ place_of (lowest_unused desk store.now kind) }
{
    let slots = slots_of_kind(desk, kind);
    let first = slots.start;
    (0..slots.end - first)
        .find(|i| word_at(desk, store, first + *i) < store_head::USED_WORD)
        .map(|i| first + i)
}

// The slot for a memory that is not kept yet.
fn new_seat(desk: Desk, store: &[u8], kind: Kind, key: Key) -> Option<usize>
    requires fitting { Fitting desk store.now }
    requires key_value { ok_name desk (name_of kind key) ≡ true }
    ensures { result ≡ place_of (new_seat desk store.now kind key) }
{
    match kind {
        Kind::Cue | Kind::Group => lowest_unused(desk, store, kind),
        Kind::Sub => Some(store_desk::sub_slot(desk, key)),
    }
}

// A kept memory stays in its slot.
fn seat(desk: Desk, store: &[u8], kind: Kind, key: Key) -> Option<usize>
    requires fitting { Fitting desk store.now }
    requires key_value { ok_name desk (name_of kind key) ≡ true }
    ensures { result ≡ place_of (seat_of desk store.now (name_of kind key)) }
{
    match find(desk, store, kind, key) {
        Some(slot) => Some(slot),
        None => new_seat(desk, store, kind, key),
    }
}

// ---- start

// The head of a slot that keeps nothing.
const UNUSED: Head = Head {
    used: 0,
    page: 0,
    whole: 0,
    fraction: 0,
    link: 0,
    link_whole: 0,
    link_fraction: 0,
    up: 0,
    up_fade: 0,
    up_delay: 0,
    down: 0,
    down_fade: 0,
    down_delay: 0,
    followon: 0,
    followon_time: 0,
    rest: 0,
};

// The head of a memory with no times and no link.
fn blank_head(key: Key) -> Head
    ensures { result ≡ blank_head key }
{
    Head {
        used: 1,
        page: key.page,
        whole: key.whole,
        fraction: key.fraction,
        ..UNUSED
    }
}

// A slot's bytes become this head, with no levels.
fn write_afresh(slot: &mut [u8], h: Head)
    requires head_fits { HeadFits h }
    requires head_length_in_bounds { head_length ≤ length slot.old }
    ensures { slot.new ≡ encode_head h ++ replicate (length slot.old - head_length) 0 }
{
    let (head, levels) = slot.split_at_mut(store_desk::HEAD_LENGTH);
    head.copy_from_slice(&store_head::encode(h));
    cells::fill(levels, 0);
}

// A slot becomes a memory of this key, afresh.
fn blank(desk: Desk, store: &mut [u8], slot: usize, key: Key)
    requires fitting { Fitting desk store.old }
    requires slot_bound { slot < slots_of desk }
    requires key_fits { KeyFits key }
    ensures { store.new ≡ put_slot desk store.old slot (blank_slot desk key) }
{
    write_afresh(&mut store[slot_range(desk, slot)], blank_head(key));
}

// A new cue or group takes the lowest unused slot; a kept memory starts afresh where it is.
pub fn start(desk: Desk, store: &mut [u8], kind: Kind, key: Key) -> Option<usize>
    requires fitting { Fitting desk store.old }
    requires key_value { ok_name desk (name_of kind key) ≡ true }
    ensures { started_as result store.new ≡ start_of desk store.old (name_of kind key) }
{
    let slot = seat(desk, store, kind, key)?;
    blank(desk, store, slot, key);
    Some(slot)
}

// ---- a change of one memory

// A head with a time or a link set.
fn changed(e: Edit, h: Head) -> Head
    ensures { result ≡ edit_head e h }
{
    match e {
        Edit::Up(fade, delay) => Head {
            up: 1,
            up_fade: fade,
            up_delay: delay,
            ..h
        },
        Edit::Down(fade, delay) => Head {
            down: 1,
            down_fade: fade,
            down_delay: delay,
            ..h
        },
        Edit::Followon(time) => Head {
            followon: 1,
            followon_time: time,
            ..h
        },
        Edit::Link(whole, fraction) => Head {
            link: 1,
            link_whole: whole,
            link_fraction: fraction,
            ..h
        },
        Edit::Level(_, _) => h,
    }
}

// The other bytes of the slot stay. Kept out of line: put in line, the walk of a load holds its code at each change (7 in 100 more instructions).
#[inline(never)]
fn change_head(slot: &mut [u8], e: Edit)
    requires head_fits { HeadFits (edit_head e (decode_head slot.old)) }
    requires head_length_in_bounds { head_length ≤ length slot.old }
    ensures { slot.new ≡ with_head e slot.old }
{
    let h = changed(e, store_head::decode(slot));
    slot[..store_desk::HEAD_LENGTH].copy_from_slice(&store_head::encode(h));
}

// One channel's level; channel 1 comes first.
fn set_level(desk: Desk, slot: &mut [u8], channel: u32, level: u8)
    requires in_range { InRange desk }
    requires within { Within 1 channel desk.channels }
    requires desk_in_bounds { slot_length desk ≤ length slot.old }
    ensures { slot.new ≡ edit_slot desk (Edit.Level channel level) slot.old }
{
    let n = channel as usize - 1;
    slot[store_desk::HEAD_LENGTH + n * desk.level_width()] = level;
}

fn edit_slot(desk: Desk, slot: &mut [u8], e: Edit)
    requires in_range { InRange desk }
    requires editing { Editing desk e }
    requires desk_in_bounds { slot_length desk ≤ length slot.old }
    ensures { slot.new ≡ edit_slot desk e slot.old }
{
    match e {
        Edit::Up(..) | Edit::Down(..) | Edit::Followon(_) | Edit::Link(..) => change_head(slot, e),
        Edit::Level(channel, level) => set_level(desk, slot, channel, level),
    }
}

// UP, DOWN, FOLLOWON, LINK or one level of the memory in a slot.
pub fn edit(desk: Desk, store: &mut [u8], slot: usize, e: Edit)
    requires fitting { Fitting desk store.old }
    requires slot_bound { slot < slots_of desk }
    requires editing { Editing desk e }
    ensures { store.new ≡ edit_at desk store.old slot e }
{
    edit_slot(desk, &mut store[slot_range(desk, slot)], e);
}

// A link, at the end of a load with translation.
pub fn set_link(desk: Desk, store: &mut [u8], slot: usize, whole: u32, fraction: u32)
    requires fitting { Fitting desk store.old }
    requires slot_bound { slot < slots_of desk }
    requires editing { Editing desk (Edit.Link whole fraction) }
    ensures { store.new ≡ edit_at desk store.old slot (Edit.Link whole fraction) }
{
    edit(desk, store, slot, Edit::Link(whole, fraction));
}

// ---- the patch

// Where a patch entry lies in the store.
fn entry_range(desk: Desk, entry: usize) -> Range<usize>
    requires in_range { InRange desk }
    requires bound { entry < entries_of desk }
    ensures start { result.start ≡ patch_start desk + entry * entry_length_of }
    ensures end { result.end ≡ patch_start desk + entry * entry_length_of + entry_length_of }
{
    let start = desk.patch_start() + entry * store_desk::ENTRY_LENGTH;
    start..start + store_desk::ENTRY_LENGTH
}

// The bytes of a patch entry.
pub fn entry_bytes<'a>(desk: Desk, store: &'a [u8], entry: usize) -> &'a [u8]
    requires fitting { Fitting desk store.now }
    requires bound { entry < entries_of desk }
    ensures { result.now ≡ entry_at desk store.now entry }
{
    &store[entry_range(desk, entry)]
}

pub fn patch_of(desk: Desk, store: &[u8], page: u32, dimmer: u32) -> Patch
    requires fitting { Fitting desk store.now }
    requires on_patch { OnPatch desk page dimmer }
    ensures { result ≡ patched_to desk store.now page dimmer }
{
    let entry = store_desk::entry_of(desk, page, dimmer);
    store_head::decode_patch(entry_bytes(desk, store, entry))
}

// A dimmer has one channel, the last given.
pub fn patch_dimmer(desk: Desk, store: &mut [u8], page: u32, dimmer: u32, channel: u32, level: u8)
    requires fitting { Fitting desk store.old }
    requires on_patch { OnPatch desk page dimmer }
    requires channel_lt_channel_span { channel < channel_span }
    ensures { store.new ≡ patched desk store.old page dimmer channel level }
{
    let bytes = store_head::encode_patch(Patch {
        channel,
        level: u32::from(level),
        rest: 0,
    });
    let entry = store_desk::entry_of(desk, page, dimmer);
    store[entry_range(desk, entry)].copy_from_slice(&bytes);
}

// ---- CLEAR, and emptying

// A memory of this page; of any page where page is 0. The key's number tells it, so that the rest of a head is not read.
fn hits(desk: Desk, store: &[u8], slot: usize, page: u32) -> bool
    requires fitting { Fitting desk store.now }
    requires slot_bound { slot < slots_of desk }
    requires page_lt_page_span { page < page_span }
    ensures { result ≡ hits_at desk store.now page slot }
{
    let word = word_at(desk, store, slot);
    if page == 0 {
        return store_head::USED_WORD <= word;
    }
    let first = store_head::quick_key(page, 0, 0);
    (first..first + store_head::PAGE_WORD).contains(&word)
}

// So many bytes from a place on become zero.
fn zero(store: &mut [u8], at: usize, count: usize)
    requires { at + count ≤ length store.old }
    ensures { store.new ≡ put store.old at (replicate count 0) }
{
    cells::fill(&mut store[at..at + count], 0);
}

fn zero_slot(desk: Desk, store: &mut [u8], slot: usize)
    requires fitting { Fitting desk store.old }
    requires slot_bound { slot < slots_of desk }
    ensures { store.new ≡ put_slot desk store.old slot (replicate (slot_length desk) 0) }
{
    zero(store, slot_range(desk, slot).start, desk.slot_length());
}

// Slots that are not hit are left alone.
fn clear_slot(desk: Desk, store: &mut [u8], slot: usize, page: u32)
    requires fitting { Fitting desk store.old }
    requires slot_bound { slot < slots_of desk }
    requires page_lt_page_span { page < page_span }
    ensures { store.new ≡ cond (hits_at desk store.old page slot) (put_slot desk store.old slot (replicate (slot_length desk) 0)) store.old }
{
    if hits(desk, store, slot, page) {
        zero_slot(desk, store, slot);
    }
}

// The memories of a kind, on one page, or on every page where page is 0.
pub fn clear_kind(desk: Desk, store: &mut [u8], kind: Kind, page: u32)
    requires fitting { Fitting desk store.old }
    requires page_lt_page_span { page < page_span }
    ensures { store.new ≡ cleared desk store.old kind page }
{
    for slot in slots_of_kind(desk, kind) {
        clear_slot(desk, &mut *store, slot, page);
    }
}

// One patch page, or every page where page is 0.
pub fn clear_patch(desk: Desk, store: &mut [u8], page: u32)
    requires fitting { Fitting desk store.old }
    requires page_bound { page ≤ desk.patch_pages }
    ensures { store.new ≡ cleared_patch desk store.old page }
{
    let start = desk.patch_start();
    if page == 0 {
        zero(store, start, desk.entries() * store_desk::ENTRY_LENGTH);
        return;
    }
    let count = desk.dimmers as usize * store_desk::ENTRY_LENGTH;
    zero(store, start + (page as usize - 1) * count, count);
}

// Every needed byte becomes zero; bytes past the needed length stay.
pub fn empty(desk: Desk, store: &mut [u8])
    requires { Fitting desk store.old }
    ensures { store.new ≡ emptied desk store.old }
{
    zero(store, 0, desk.store_length());
}
