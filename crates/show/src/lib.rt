// The public calls (paper 01, "Calls turned away"). None has a `requires`: every desk, store, stream and output gets an answer, and a
// call that is turned away changes no lent byte; but the word that `look_up` is lent for its answer always has it.
#![tactic(auto)]

ghost use Rattle.std.specs.Prelude.{◌≡◌, true};
ghost use Rattle.store_code.specs.Fits.{Fitting};
ghost use Rattle.store.specs.Form.{form_of, good_form};
ghost use Rattle.save.specs.Lines.{stream_of};
ghost use Rattle.show.specs.Calls.{form_admission, lent_admission, admission_of, LoadPromise, translate_admission, TranslatePromise, write_reply, written_as, put_call, WritePromise, EmptyPromise, LookedUp, look_at, LookPromise, cue_name, find_reply, placed_at, FindPromise};
ghost use Rattle.store.specs.Slots.{find as find_slot, place_of};

use load::Totals;
use store::FormError;
use store_desk::{Desk, Key, Kind, Refusal};

// The longest stream that is read or written, in bytes.
const MOST_BYTES: usize = 262143;

// R2, R3 in that order: of a desk and a store that any bytes may be in.
pub fn lent(desk: Desk, store: &[u8]) -> Result<(), Refusal>
    ensures { result ≡ lent_admission desk store.now }
{
    if !desk.in_range() {
        return Err(Refusal::R2);
    }
    if store.len() < desk.store_length() {
        return Err(Refusal::R3);
    }
    Ok(())
}

// The form of a store: R4a, R4b, R4c in that order. A place is told from 1.
fn formed(desk: Desk, store: &[u8]) -> Result<(), Refusal>
    requires { Fitting desk store.now }
    ensures { result ≡ form_admission (form_of desk store.now) }
{
    match store_form::form(desk, store) {
        Ok(()) => Ok(()),
        Err(FormError::BadSlot(slot)) => Err(Refusal::R4a(slot + 1)),
        Err(FormError::Repeated(slot)) => Err(Refusal::R4b(slot + 1)),
        Err(FormError::BadEntry(entry)) => Err(Refusal::R4c(entry + 1)),
    }
}

// R2, R3, R4a, R4b, R4c in that order.
pub fn turned_away(desk: Desk, store: &[u8]) -> Result<(), Refusal>
    ensures { result ≡ admission_of desk store.now }
{
    lent(desk, store)?;
    formed(desk, store)
}

// Reads a stream into a store.
pub fn load(
    desk: Desk,
    store: &mut [u8],
    stream: &[u8],
    reports: &mut [u64],
) -> Result<Totals, Refusal>
    ensures { LoadPromise desk store.old reports.old stream.now result store.new reports.new }
{
    if MOST_BYTES < stream.len() {
        return Err(Refusal::R1);
    }
    turned_away(desk, &*store)?;
    Ok(load_run::run(desk, store, stream, reports))
}

// R2, R3, R4a, R4b, R4c, and R7 where the desk has no groups or no submasters.
fn untranslated(desk: Desk, store: &[u8]) -> Result<(), Refusal>
    ensures { result ≡ translate_admission desk store.now }
{
    turned_away(desk, store)?;
    if desk.groups == 0 || desk.subs == 0 {
        return Err(Refusal::R7);
    }
    Ok(())
}

// Reads a stream into a store, its cues, groups and submasters numbered anew.
pub fn translate(
    desk: Desk,
    store: &mut [u8],
    stream: &[u8],
    reports: &mut [u64],
) -> Result<Totals, Refusal>
    ensures { TranslatePromise desk store.old reports.old stream.now result store.new reports.new }
{
    if MOST_BYTES < stream.len() {
        return Err(Refusal::R1);
    }
    untranslated(desk, &*store)?;
    Ok(load_translate::run(desk, store, stream, reports))
}

// R5, R6, or the stream.
fn put(desk: Desk, store: &[u8], out: &mut [u8]) -> Result<usize, Refusal>
    requires fitting { Fitting desk store.now }
    requires good_form { good_form desk store.now ≡ true }
    ensures { written_as (write_reply result) out.new ≡ put_call (stream_of desk store.now) out.old }
{
    let n = save::length(desk, store);
    if MOST_BYTES < n {
        return Err(Refusal::R5);
    }
    if out.len() < n {
        return Err(Refusal::R6(n));
    }
    Ok(save::stream(desk, store, out))
}

// Puts a store's show back as one fixed stream.
pub fn write(desk: Desk, store: &[u8], out: &mut [u8]) -> Result<usize, Refusal>
    ensures { WritePromise desk store.now out.old result out.new }
{
    turned_away(desk, store)?;
    put(desk, store, out)
}

// Makes a store's needed bytes zero. Good form is not asked for.
pub fn empty(desk: Desk, store: &mut [u8]) -> Result<(), Refusal>
    ensures { EmptyPromise desk store.old result store.new }
{
    lent(desk, &*store)?;
    store_code::empty(desk, store);
    Ok(())
}

// The answer words of a look-up; a refusal is its own word. No refusal has the number of "not kept".
pub const KEPT: u32 = 0;

pub const NOT_KEPT: u32 = 255;

// Where the levels of a cue stand: the slot that keeps it, in a store in good form.
fn cue_slot(desk: Desk, store: &[u8], key: Key) -> Option<usize>
    requires fitting { Fitting desk store.now }
    requires good_form { good_form desk store.now ≡ true }
    ensures { result ≡ place_of (find_slot desk store.now (cue_name key)) }
{
    if store_desk::ok_name(desk, Kind::Cue, key) {
        return store_code::find(desk, store, Kind::Cue, key);
    }
    None
}

// The part of a kept cue, and its word.
fn levels_of<'a, 'b>(desk: Desk, store: &'a [u8], key: Key, answer: &'b mut u32) -> &'a [u8]
    requires fitting { Fitting desk store.now }
    requires good_form { good_form desk store.now ≡ true }
    ensures { LookedUp store.entry result answer.new (look_at desk store.now (find_slot desk store.now (cue_name key))) }
{
    match cue_slot(desk, store, key) {
        Some(slot) => {
            *answer = KEPT;
            store_code::levels(desk, store, slot)
        }
        None => {
            *answer = NOT_KEPT;
            &store[0..0]
        }
    }
}

// The levels of a kept cue, as the very bytes of the store; the answer word says kept, not kept or the refusal.
pub fn look_up<'a, 'b>(
    desk: Desk,
    store: &'a [u8],
    page: u32,
    whole: u32,
    tenths: u32,
    answer: &'b mut u32,
) -> &'a [u8]
    ensures { LookPromise desk store.entry page whole tenths result answer.new }
{
    match turned_away(desk, store) {
        Err(refusal) => {
            *answer = refusal.word();
            &store[0..0]
        }
        Ok(()) => levels_of(
            desk,
            store,
            Key {
                page,
                whole,
                fraction: tenths,
            },
            answer,
        ),
    }
}

fn levels_place(desk: Desk, store: &[u8], key: Key) -> Result<Option<usize>, Refusal>
    requires fitting { Fitting desk store.now }
    requires good_form { good_form desk store.now ≡ true }
    ensures { find_reply result ≡ placed_at desk (find_slot desk store.now (cue_name key)) }
{
    match cue_slot(desk, store, key) {
        Some(slot) => Ok(Some(store_code::levels_start(desk, slot))),
        None => Ok(None),
    }
}

// The place in the store where the levels of a kept cue begin: what `look_up` hands out begins there. None where it is not kept.
pub fn find(
    desk: Desk,
    store: &[u8],
    page: u32,
    whole: u32,
    tenths: u32,
) -> Result<Option<usize>, Refusal>
    ensures { FindPromise desk store.now page whole tenths result }
{
    turned_away(desk, store)?;
    let key = Key {
        page,
        whole,
        fraction: tenths,
    };
    levels_place(desk, store, key)
}
