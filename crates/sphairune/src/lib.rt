// The calls for programs in other languages, with numbers and slices only. A desk is the list of its nine limits, in the order of paper
// 01's table (channels, dimmers, cues, groups, highest submaster, pages of cues, groups, submasters, patch); a limit that the list lacks
// is 0, and so out of range where it matters. The answer is one word: 0, or the number of the refusal (R4a, R4b, R4c are 4A, 4B, 4C in
// hexadecimal) and above its eight bits the place of the slot or patch entry that is out of form, from 1, else 0. A refusal leaves every lent
// list as it was; but with 6 `sphairune_write` stores the length needed. 255 from `sphairune_find` says that the cue is not kept.
#![tactic(auto)]

ghost use Rattle.std.specs.Prelude.{◌≡◌, [], ◌∷◌, ◌≤◌, get_or};
ghost use Rattle.cells.specs.Note.{noted_from};
ghost use Rattle.sphairune.specs.Calls.{desk_of, exported, replied_in, NeededExport, EmptyExport, LoadExport, TranslateExport, WriteExport, FindExport};
ghost use Rattle.sphairune.specs.Fits.{Telling};
ghost use Rattle.sphairune.specs.Calls.{MemoriesExport, HeadExport, LevelsExport, PatchExport, TextExport};
ghost use Rattle.store_desk.specs.Refusal.{refusal_told, most_places};
ghost use Rattle.value_level.specs.Level.{byte_percent};
ghost use Rattle.value_written.specs.Text.{time_text};
ghost use Rattle.show.specs.Calls.{totals_told, write_reply, find_reply};
ghost use Rattle.show_words.specs.Words.{severity_of, condition_text};

use load::Totals;
use store_desk::{Desk, Refusal};

fn number_at(list: &[u32], i: usize) -> u32
    ensures { result ≡ get_or list.now i 0 }
{
    list.get(i).copied().unwrap_or(0)
}

fn desk_of(limits: &[u32]) -> Desk
    ensures { result ≡ desk_of limits.now }
{
    Desk {
        channels: number_at(limits, 0),
        dimmers: number_at(limits, 1),
        cues: number_at(limits, 2),
        groups: number_at(limits, 3),
        subs: number_at(limits, 4),
        cue_pages: number_at(limits, 5),
        group_pages: number_at(limits, 6),
        sub_pages: number_at(limits, 7),
        patch_pages: number_at(limits, 8),
    }
}

// Past its end a list keeps what it has.
fn note_length(list: &mut [usize], v: usize)
    ensures { list.new ≡ noted_from 0 list.old (v ∷ []) }
{
    cells::note(list, 0, v);
}

// What a refusal tells beside its number.
fn note_told(list: &mut [usize], refusal: Refusal)
    ensures { list.new ≡ noted_from 0 list.old (refusal_told refusal) }
{
    match refusal {
        Refusal::R6(n) => note_length(list, n),
        Refusal::R1 => {}
        Refusal::R2 => {}
        Refusal::R3 => {}
        Refusal::R4a(_) => {}
        Refusal::R4b(_) => {}
        Refusal::R4c(_) => {}
        Refusal::R5 => {}
        Refusal::R7 => {}
    }
}

// A length, or what a refusal tells, and the word.
fn note_written(list: &mut [usize], written: Result<usize, Refusal>) -> u32
    requires { (write_reply written).place ≤ most_places }
    ensures { exported result (list.new ∷ []) ≡ replied_in (write_reply written) list.old }
{
    match written {
        Err(refusal) => {
            note_told(list, refusal);
            refusal.word()
        }
        Ok(n) => {
            note_length(list, n);
            0
        }
    }
}

// A place, and the word.
fn note_placed(list: &mut [usize], placed: Result<Option<usize>, Refusal>) -> u32
    requires { Telling (find_reply placed) }
    ensures { exported result (list.new ∷ []) ≡ replied_in (find_reply placed) list.old }
{
    match placed {
        Err(refusal) => refusal.word(),
        Ok(place) => match place {
            None => show::NOT_KEPT,
            Some(at) => {
                note_length(list, at);
                show::KEPT
            }
        },
    }
}

// The count of reports, the four tallies and the closing number.
fn totals_told(t: Totals) -> [u32; 6]
    ensures { result ≡ totals_told t }
{
    [t.reports, t.blank, t.obeyed, t.passed, t.dropped, t.closing]
}

// The bytes that a store of this desk needs, in `length`; or 2.
pub fn sphairune_needed(limits: &[u32], length: &mut [usize]) -> u32
    ensures { NeededExport limits.now length.old result length.new }
{
    match desk_of(limits).needed() {
        Err(refusal) => refusal.word(),
        Ok(n) => {
            note_length(length, n);
            0
        }
    }
}

// Makes a store's needed bytes zero; or 2, 3.
pub fn sphairune_empty(limits: &[u32], store: &mut [u8]) -> u32
    ensures { EmptyExport limits.now store.old result store.new }
{
    match show::empty(desk_of(limits), store) {
        Err(refusal) => refusal.word(),
        Ok(()) => 0,
    }
}

// Reads a stream into a store. In `totals`: the count of reports, then records blank, obeyed, passed, dropped, and the closing number;
// or 1, 2, 3, 4A to 4C.
pub fn sphairune_load(
    limits: &[u32],
    store: &mut [u8],
    stream: &[u8],
    reports: &mut [u64],
    totals: &mut [u32],
) -> u32
    ensures { LoadExport limits.now store.old stream.now reports.old totals.old
        result store.new reports.new totals.new }
{
    match show::load(desk_of(limits), store, stream, reports) {
        Err(refusal) => refusal.word(),
        Ok(t) => {
            cells::note_all(totals, &totals_told(t));
            0
        }
    }
}

// Reads a stream into a store as `sphairune_load` does, with its cues, groups and submasters numbered anew; or 1, 2, 3, 4A to 4C, and 7 for a desk
// without groups or without submasters.
pub fn sphairune_translate(
    limits: &[u32],
    store: &mut [u8],
    stream: &[u8],
    reports: &mut [u64],
    totals: &mut [u32],
) -> u32
    ensures { TranslateExport limits.now store.old stream.now reports.old totals.old
        result store.new reports.new totals.new }
{
    match show::translate(desk_of(limits), store, stream, reports) {
        Err(refusal) => refusal.word(),
        Ok(t) => {
            cells::note_all(totals, &totals_told(t));
            0
        }
    }
}

// Puts a store's show into `out` as one fixed stream; in `length` the length written, or with 6 the length needed; or 2, 3, 4A to 4C, 5.
pub fn sphairune_write(limits: &[u32], store: &[u8], out: &mut [u8], length: &mut [usize]) -> u32
    ensures { WriteExport limits.now store.now out.old length.old
        result out.new length.new }
{
    let written = show::write(desk_of(limits), store, out);
    note_written(length, written)
}

// Where in the store the levels of a kept cue begin, in `place`; or 255 where it is not kept; or 2, 3, 4A to 4C.
pub fn sphairune_find(
    limits: &[u32],
    store: &[u8],
    page: u32,
    whole: u32,
    tenths: u32,
    place: &mut [usize],
) -> u32
    ensures { FindExport limits.now store.now page whole tenths place.old result place.new }
{
    let placed = show::find(desk_of(limits), store, page, whole, tenths);
    note_placed(place, placed)
}

// ---- reading a store

// The slots of the kept memories of a kind (0 cues, 1 groups, 2 submasters), by page and number, in `slots`, as many as it has room for, and in
// `count` how many are kept; or 255 for any other kind; or 2, 3, 4A to 4C. Slots count from 1 through the whole store.
pub fn sphairune_memories(
    limits: &[u32],
    store: &[u8],
    kind: u32,
    slots: &mut [u32],
    count: &mut [usize],
) -> u32
    ensures { MemoriesExport limits.now store.now kind slots.old count.old
        result slots.new count.new }
{
    match show_read::memories(desk_of(limits), store, kind, slots) {
        Err(refusal) => refusal.word(),
        Ok(None) => show::NOT_KEPT,
        Ok(Some(n)) => {
            note_length(count, n);
            show::KEPT
        }
    }
}

// The values of a slot's head in `values`; or 255 where the desk has no such slot; or 2, 3.
pub fn sphairune_head(limits: &[u32], store: &[u8], slot: u32, values: &mut [u32]) -> u32
    ensures { HeadExport limits.now store.now slot values.old result values.new }
{
    match show_read::head(desk_of(limits), store, slot) {
        Err(refusal) => refusal.word(),
        Ok(None) => show::NOT_KEPT,
        Ok(Some(head)) => {
            cells::note_all(values, &store_head::head_values(head));
            show::KEPT
        }
    }
}

// Where in the store a slot's levels begin, in `place`; or 255 where the desk has no such slot; or 2, 3.
pub fn sphairune_levels(limits: &[u32], store: &[u8], slot: u32, place: &mut [usize]) -> u32
    ensures { LevelsExport limits.now store.now slot place.old result place.new }
{
    let placed = show_read::levels(desk_of(limits), store, slot);
    note_placed(place, placed)
}

// What a dimmer is patched to, in `values`: channel, level, zero bits; or 255 where the desk has no such dimmer; or 2, 3.
pub fn sphairune_patch(
    limits: &[u32],
    store: &[u8],
    page: u32,
    dimmer: u32,
    values: &mut [u32],
) -> u32
    ensures { PatchExport limits.now store.now page dimmer values.old result values.new }
{
    match show_read::patch(desk_of(limits), store, page, dimmer) {
        Err(refusal) => refusal.word(),
        Ok(None) => show::NOT_KEPT,
        Ok(Some(patch)) => {
            cells::note_all(values, &store_head::patch_values(patch));
            show::KEPT
        }
    }
}

// ---- what people read

// A level in percent.
pub fn sphairune_percent(level: u8) -> u32
    ensures { result ≡ byte_percent level }
{
    value_level::byte_percent(level)
}

// The letter of a condition's severity.
pub fn sphairune_severity(condition: u32) -> u8
    ensures { result ≡ severity_of condition }
{
    show_words::severity(condition)
}

// A time in tenths of a second as the written stream has it, in `out`, and its length in `length`; or 6 with the length needed.
pub fn sphairune_time_text(tenths: u32, out: &mut [u8], length: &mut [usize]) -> u32
    ensures { TextExport (time_text tenths) out.old length.old result out.new length.new }
{
    let written = show_words::time_text(tenths, out);
    note_written(length, written)
}

// The standard's text for a condition in `out`, and its length in `length`; or 6 with the length needed.
pub fn sphairune_condition_text(condition: u32, out: &mut [u8], length: &mut [usize]) -> u32
    ensures { TextExport (condition_text condition) out.old length.old result out.new length.new }
{
    let written = show_words::condition_text(condition, out);
    note_written(length, written)
}
