// The public calls that read a store, so that no caller knows how its bytes lie (paper 01, "The store"). None has a `requires`. Slots and
// dimmers count from 1, slots through the whole store: cues, then groups, then submasters, as R4a tells them.
//
// `memories` tests R2 to R4c. The other three test R2 and R3 only, so that a walk over all memories is linear: of a store that is not in
// good form they tell the bits as they stand.
#![tactic(auto)]

ghost use Rattle.std.specs.Prelude.{◌≡◌, Ok};
ghost use Rattle.store_desk.specs.Size.{InRange};
ghost use Rattle.store.specs.Good.{Ready};
ghost use Rattle.store.specs.Slots.{place_of};
ghost use Rattle.store_code.specs.Fits.{Fitting};
ghost use Rattle.show.specs.Calls.{find_reply, placed_at};
ghost use Rattle.show_read.specs.Calls.{list_reply, listed_as, kind_list, MemoriesPromise, slot_named, head_reply, head_in, HeadPromise, LevelsPromise, patch_reply, patch_in, PatchPromise};

use store_desk::{Desk, Kind, NoSuchKind, Refusal};
use store_head::{Head, Patch};

// Of the kind that the number names, if there is one.
fn list(desk: Desk, store: &[u8], kind: u32, slots: &mut [u32]) -> Option<usize>
    requires { Ready desk store.now }
    ensures { listed_as (list_reply (Ok result)) slots.new ≡ kind_list desk store.now kind slots.old }
{
    match Kind::try_from(kind) {
        Ok(kind) => Some(save::memory_slots(desk, store, kind, slots)),
        Err(NoSuchKind) => None,
    }
}

// The slots of the kept memories of a kind (0 cues, 1 groups, 2 submasters), in the order of the written stream, as many as the list has room
// for.
pub fn memories(
    desk: Desk,
    store: &[u8],
    kind: u32,
    slots: &mut [u32],
) -> Result<Option<usize>, Refusal>
    ensures { MemoriesPromise desk store.now kind slots.old result slots.new }
{
    show::turned_away(desk, store)?;
    Ok(list(desk, store, kind, slots))
}

// The slot of a number, if the desk has it.
fn slot_of(desk: Desk, number: u32) -> Option<usize>
    requires { InRange desk }
    ensures { result ≡ place_of (slot_named desk number) }
{
    if store_desk::has_slot(desk, number) {
        Some(cells::place(number) - 1)
    } else {
        None
    }
}

fn head_at(desk: Desk, store: &[u8], number: u32) -> Option<Head>
    requires { Fitting desk store.now }
    ensures { head_reply (Ok result) ≡ head_in desk store.now (slot_named desk number) }
{
    let slot = slot_of(desk, number)?;
    Some(store_code::head_of(desk, store, slot))
}

// The values of one slot's head.
pub fn head(desk: Desk, store: &[u8], slot: u32) -> Result<Option<Head>, Refusal>
    ensures { HeadPromise desk store.now slot result }
{
    show::lent(desk, store)?;
    Ok(head_at(desk, store, slot))
}

fn levels_at(desk: Desk, number: u32) -> Option<usize>
    requires { InRange desk }
    ensures { find_reply (Ok result) ≡ placed_at desk (slot_named desk number) }
{
    let slot = slot_of(desk, number)?;
    Some(store_code::levels_start(desk, slot))
}

// The place in the store where a slot's levels begin.
pub fn levels(desk: Desk, store: &[u8], slot: u32) -> Result<Option<usize>, Refusal>
    ensures { LevelsPromise desk store.now slot result }
{
    show::lent(desk, store)?;
    Ok(levels_at(desk, slot))
}

fn patch_at(desk: Desk, store: &[u8], page: u32, dimmer: u32) -> Option<Patch>
    requires { Fitting desk store.now }
    ensures { patch_reply (Ok result) ≡ patch_in desk store.now page dimmer }
{
    if store_desk::has_dimmer(desk, page, dimmer) {
        Some(store_code::patch_of(desk, store, page, dimmer))
    } else {
        None
    }
}

// What a dimmer is patched to.
pub fn patch(desk: Desk, store: &[u8], page: u32, dimmer: u32) -> Result<Option<Patch>, Refusal>
    ensures { PatchPromise desk store.now page dimmer result }
{
    show::lent(desk, store)?;
    Ok(patch_at(desk, store, page, dimmer))
}
