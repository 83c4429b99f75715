// The load with translation (paper 02, C-13): the walk of every load with its memories numbered anew; then, where a LINK asked for a number, a
// second walk that looks for the last cue that bore it; then the links.
#![tactic(auto)]

ghost use Rattle.std.specs.Prelude.{◌≡◌, not, ◌&&◌, ◌-◌, ◌≤◌, ◌<◌, eqb, length, take, drop};
ghost use Rattle.text_records.specs.Received.{longest};
ghost use Rattle.text_records.specs.Stream.{records_of};
ghost use Rattle.text_fields.specs.Words.{words_of};
ghost use Rattle.text_fields.specs.Places.{words_from};
ghost use Rattle.store_desk.specs.Size.{slots_of};
ghost use Rattle.store.specs.Slots.{head_at, is_used};
ghost use Rattle.store_code.specs.Fits.{Fitting};
ghost use Rattle.load.specs.Condition.{bad_number};
ghost use Rattle.load.specs.Translated.{most_cues, linked, translated_of};
ghost use Rattle.load.specs.Fits.{most_records};
ghost use Rattle.load_naming.specs.Line.{Line};
ghost use Rattle.load_tell.specs.Count.{told, Reportable};
ghost use Rattle.load_run.specs.Take.{Spans};
ghost use Rattle.load_run.specs.Loaded.{run_loaded, loaded_of};
ghost use Rattle.load_translate.specs.Bearing.{family_bearing, fields_bearing, bearing_in, Bearable, marked_bornes, bearer_now, met_from, found_by, meeting, met_by, Countable, sought_by};
ghost use Rattle.load_translate.specs.Links.{linking, link_on, links_on, linked_by, any_asked, Losing};

use load::{Family, Totals};
use load_hear::Book;
use load_tell::Count;
use store_desk::{Desk, Kind};

// How many CUE records there were so far, and how many of them were accepted.
#[derive(Clone, Copy)]
struct Seen {
    tried: usize,
    cues: u32,
}

const BAD_NUMBER: u32 = 41;

// ---- which cue bears which number

// What a CUE record bears; any other bears nothing.
fn family_bearing(f: Family, text: &[u8], at: usize) -> Option<u32>
    requires { Line text.now at }
    ensures { result ≡ family_bearing f (words_from text.now at) }
{
    match f {
        // Of `Primary(Kind::Group | Kind::Sub)`, or of a `_` behind `Primary(Kind::Cue)`, the proof knows no kind.
        Family::Primary(kind) => match kind {
            Kind::Cue => Some(load_naming::borne_at(text, at)),
            Kind::Group | Kind::Sub => None,
        },
        Family::Augments(_) | Family::Basic(_) => None,
    }
}

// Of a record's text.
fn text_bearing(text: &[u8]) -> Option<u32>
    requires { length text.now ≤ longest }
    ensures { result ≡ fields_bearing (words_of 0 text.now) }
{
    let start = text_fields::field_start(text, 0);
    if start < text.len() {
        let said = text_fields::keyword_again(text, start);
        return family_bearing(load_naming::family_of(said.keyword), text, said.end);
    }
    None
}

// Of the record from `at` to `end`; of an over-long one nothing is heard.
fn bearing_at(stream: &[u8], at: usize, end: usize, plain: bool) -> Option<u32>
    requires { Spans stream.now at end plain }
    ensures { result ≡ bearing_in (take (end - at) (drop at stream.now)) }
{
    let r = text_records::receive(stream, at, end);
    let mut bytes = r.bytes;
    if text_records::over_long(r) {
        return None;
    }
    let n = if plain {
        r.count
    } else {
        text_records::clean(&mut bytes[..r.count]).count
    };
    text_bearing(&bytes[..n])
}

// The k-th accepted CUE bears a number: the last bearer, now, of what the cue of a slot asked for.
fn bearer_now(asked: u32, number: u32, k: u32, bearer: u32) -> u32
    requires { number < 4294967295 }
    ensures { result ≡ bearer_now asked number k bearer }
{
    if asked == number + 1 { k } else { bearer }
}

// Of every slot.
fn meet(asked: &[u32], found: &mut [u32], number: u32, k: u32)
    requires found_in_bounds { length found.old ≤ length asked.now }
    requires number_bound { number < 4294967295 }
    ensures { found.new ≡ met_from asked.now number k (length found.old) 0 found.old }
{
    for (i, bearer) in found.iter_mut().enumerate() {
        *bearer = bearer_now(asked[i], number, k, *bearer);
    }
}

// One record, by what it bears: the marks tell which CUEs were accepted.
fn meet_bearing(b: Option<u32>, seen: Seen, book: &Book, found: &mut [u32]) -> Seen
    requires found_in_bounds { length found.old ≤ length book.now.asked }
    requires bearable { Bearable b }
    requires countable { Countable seen }
    ensures { meeting result found.new ≡ met_by book.now.marks book.now.asked b (meeting seen found.old) }
{
    let Some(number) = b else {
        return seen;
    };
    let tried = seen.tried + 1;
    if !load_hear::is_mark(&book.marks, seen.tried) {
        return Seen { tried, ..seen };
    }
    let cues = seen.cues + 1;
    if number != value::NO_NUMBER {
        meet(&book.asked, found, number, cues);
    }
    Seen { tried, cues }
}

// The records that were read, once more.
fn bear(stream: &[u8], records: u32, book: &Book, found: &mut [u32])
    requires records_in_bounds { records ≤ length (records_of stream.now) }
    requires stream_len_bound { length stream.now ≤ most_records }
    requires found_in_bounds { length found.old ≤ length book.now.asked }
    ensures { found.new ≡ found_by book.now.asked 1 found.old (marked_bornes book.now.marks 0 (take records (records_of stream.now))) }
{
    let mut seen = Seen { tried: 0, cues: 0 };
    let mut at = 0;
    for n in 0..records {
        let first = text_records::plain_again(stream, at);
        let end = text_records::record_end(stream, first);
        let b = bearing_at(stream, at, end, first == end);
        seen = meet_bearing(b, seen, book, found);
        at = text_records::next_start(stream, end);
    }
}

// ---- the links

fn any_asked(asked: &[u32]) -> bool
    ensures { result ≡ any_asked asked.now }
{
    asked.iter().any(|a| *a != 0)
}

// A kept cue that asked for a number.
fn has_asked(desk: Desk, store: &[u8], asked: u32, slot: usize) -> bool
    requires fitting { Fitting desk store.now }
    requires slot_bound { slot < slots_of desk }
    ensures { result ≡ (not (eqb asked 0) && is_used (head_at desk store.now slot)) }
{
    asked != 0 && store_head::USED_WORD <= store_code::word_at(desk, store, slot)
}

fn link_slot(
    desk: Desk,
    store: &mut [u8],
    reports: &mut [u64],
    count: Count,
    slot: usize,
    asked: u32,
    bearer: u32,
) -> Count
    requires fitting { Fitting desk store.old }
    requires slot_lt_cues { slot < desk.cues }
    requires reportable { Reportable count bad_number 0 }
    ensures { linking result store.new reports.new ≡ link_on desk slot asked bearer (linking count store.old reports.old) }
{
    if !has_asked(desk, store, asked, slot) {
        return count;
    }
    if bearer == 0 {
        return load_tell::report(reports, count, BAD_NUMBER, 0);
    }
    let key = load_naming::next_key(desk, Kind::Cue, bearer - 1);
    store_code::set_link(desk, store, slot, key.whole, 0);
    count
}

fn link_all(
    desk: Desk,
    store: &mut [u8],
    reports: &mut [u64],
    count: Count,
    asked: &[u32],
    found: &[u32],
) -> Count
    requires fitting { Fitting desk store.old }
    requires asked_len { length asked.now ≡ most_cues }
    requires found_len { length found.now ≡ most_cues }
    requires losing { Losing count }
    ensures { linking result store.new reports.new ≡ links_on desk asked.now found.now desk.cues 0 (linking count store.old reports.old) }
{
    let mut n = count;
    for slot in 0..desk.cues as usize {
        n = link_slot(desk, store, reports, n, slot, asked[slot], found[slot]);
    }
    n
}

// The last bearers are sought where something was asked for.
fn seek(stream: &[u8], records: u32, book: &Book, found: &mut [u32])
    requires records_in_bounds { records ≤ length (records_of stream.now) }
    requires stream_len_bound { length stream.now ≤ most_records }
    requires found_in_bounds { length found.old ≤ length book.now.asked }
    ensures { found.new ≡ sought_by book.now.asked found.old (marked_bornes book.now.marks 0 (take records (records_of stream.now))) }
{
    if any_asked(&book.asked) {
        bear(stream, records, book, found);
    }
}

// The links that the cues asked for, when the load ends.
fn link(
    desk: Desk,
    store: &mut [u8],
    stream: &[u8],
    reports: &mut [u64],
    count: Count,
    book: &Book,
) -> Count
    requires fitting { Fitting desk store.old }
    requires stream_len_bound { length stream.now ≤ most_records }
    requires losing { Losing count }
    requires records_in_bounds { count.records ≤ length (records_of stream.now) }
    ensures { linking result store.new reports.new ≡ linked_by (linked desk book.now.asked (marked_bornes book.now.marks 0 (take count.records (records_of stream.now))) store.old) (told count reports.old) }
{
    let mut found = [0u32; 600];
    seek(stream, count.records, book, &mut found);
    link_all(desk, store, reports, count, &book.asked, &found)
}

// Loads a stream, its cues, groups and submasters numbered anew.
pub fn run(desk: Desk, store: &mut [u8], stream: &[u8], reports: &mut [u64]) -> Totals
    requires fitting { Fitting desk store.old }
    requires stream_len_bound { length stream.now ≤ most_records }
    ensures { run_loaded result store.new reports.new ≡ loaded_of (translated_of desk store.old stream.now) reports.old }
{
    let mut book = Book::new();
    let done = load_run::walk(desk, store, stream, reports, &mut book);
    let count = link(desk, store, stream, reports, done.count, &book);
    load_run::close(reports, count, done.stopped)
}
