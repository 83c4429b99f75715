// The load: every record of a stream in its turn, until one stops it (paper 01, "Keywords and conditions", ENDDATA; "Reports, tallies,
// closing number"; §5.3).
#![tactic(auto)]

ghost use Rattle.std.specs.Prelude.{◌≡◌, ◌-◌, ◌≤◌, length, take, drop};
ghost use Rattle.store_code.specs.Fits.{Fitting};
ghost use Rattle.load.specs.Condition.{no_enddata};
ghost use Rattle.load.specs.Run.{load_of};
ghost use Rattle.load_held.specs.Held.{Room};
ghost use Rattle.load_tell.specs.Count.{Reportable, Countable};
ghost use Rattle.load.specs.Fits.{most_records};
ghost use Rattle.load_run.specs.Take.{taken, text_taken, record_taken, text_booked, record_booked, blank_taken, TextOf, Taking, Spans};
ghost use Rattle.load_run.specs.Loaded.{run_loaded, loaded_of, nothing_begun, walked, walk_of, closed, close_of};

use load::{Open, Outcome, State, Totals};
use load_hear::{AsGiven, Naming};
use load_held::Held;
use load_tell::Count;
use store_desk::Desk;

// How far a load is: what is open, what was counted, and whether a record stopped it.
#[derive(Clone, Copy)]
pub struct Progress {
    pub held: Held,
    pub count: Count,
    pub stopped: bool,
}

const NO_ENDDATA: u32 = 100;

// ---- a record

// The same, field by field: a struct that is copied whole goes through memory.
fn parted(held: Held) -> Held
    ensures { result ≡ held }
{
    let state = held.state;
    let key = state.key;
    Held {
        state: State {
            open: state.open,
            key: store_desk::Key {
                page: key.page,
                whole: key.whole,
                fraction: key.fraction,
            },
        },
        slot: held.slot,
    }
}

// A record that is not over-long, from its text; where something is reported, its column is sought in the record as received. What its faults leave in the lent list is no one's to read afterwards.
fn take_text<N: Naming>(
    desk: Desk,
    done: Progress,
    received: &[u8],
    text: &[u8],
    high: bool,
    control: bool,
    store: &mut [u8],
    reports: &mut [u64],
    faults: &mut [u32],
    book: &mut N,
) -> Progress
    requires text_of { TextOf received.now text.now high control }
    requires taking { Taking desk done (length text.now) store.old }
    requires room { Room faults.old }
    requires counts_fit { N.within book.old most_records }
    ensures reports_after { taken result store.new reports.new ≡ text_taken desk (N.numbers book.old) done received.now text.now high control store.old reports.old }
    ensures book_after { book.new ≡ text_booked N.ANEW N.numbers N.after desk done text.now store.old book.old result.held.slot }
{
    let s = load_step::step(desk, done.held, text, store, faults, book);
    let count = load_tell::tell(
        reports,
        done.count,
        received,
        high,
        control,
        s.outcome,
        &faults[..s.faults],
    );
    Progress {
        held: parted(s.held),
        count,
        stopped: load_tell::stops(s.outcome),
    }
}

// The record from `at` to `end`, of plain characters or of any. A plain one is its own text.
fn take_record<N: Naming>(
    desk: Desk,
    done: Progress,
    stream: &[u8],
    at: usize,
    end: usize,
    plain: bool,
    store: &mut [u8],
    reports: &mut [u64],
    faults: &mut [u32],
    book: &mut N,
) -> Progress
    requires spans { Spans stream.now at end plain }
    requires taking { Taking desk done (end - at) store.old }
    requires room { Room faults.old }
    requires counts_fit { N.within book.old most_records }
    ensures reports_after { taken result store.new reports.new ≡ record_taken desk (N.numbers book.old) done (take (end - at) (drop at stream.now)) store.old reports.old }
    ensures book_after { book.new ≡ record_booked N.numbers N.after desk done (take (end - at) (drop at stream.now)) store.old book.old result.held.slot }
{
    let r = text_records::receive(stream, at, end);
    // Ahead of the test, so that both copies are made of what was just read, and none of what was just stored.
    let mut bytes = r.bytes;
    if text_records::over_long(r) {
        return Progress {
            held: done.held,
            count: load_tell::tell_long(reports, done.count),
            stopped: true,
        };
    }
    let mut n = r.count;
    let mut high = false;
    let mut control = false;
    if !plain {
        let c = text_records::clean(&mut bytes[..n]);
        n = c.count;
        high = c.high;
        control = c.control;
    }
    take_text(
        desk,
        done,
        &stream[at..end],
        &bytes[..n],
        high,
        control,
        store,
        reports,
        faults,
        book,
    )
}

// A record with no character is blank, and nothing is said of it.
fn take_blank(done: Progress) -> Progress
    requires { Countable done.count }
    ensures { result ≡ blank_taken done }
{
    Progress {
        held: done.held,
        count: load_tell::tally(done.count, Outcome::Blank),
        stopped: false,
    }
}

// ---- the load

// Nothing is open, and nothing was read.
fn begun() -> Progress
    ensures { result ≡ nothing_begun }
{
    Progress {
        held: load_held::resting(Open::Nothing),
        count: load_tell::nothing_read(),
        stopped: false,
    }
}

// Every record of a stream in its turn, until one stops the load; what a load of this naming notes of each is in its book.
pub fn walk<N: Naming>(
    desk: Desk,
    store: &mut [u8],
    stream: &[u8],
    reports: &mut [u64],
    book: &mut N,
) -> Progress
    requires fitting { Fitting desk store.old }
    requires stream_len_bound { length stream.now ≤ most_records }
    requires from_none { N.within book.old 0 }
    ensures { walked result store.new reports.new book.new ≡ walk_of N.numbers N.after desk store.old stream.now reports.old book.old }
{
    let mut faults = [0u32; 40];
    let mut done = begun();
    let mut at = 0;
    while at < stream.len() {
        if text_records::is_end(stream[at]) {
            done = take_blank(done);
            at = text_records::next_start(stream, at);
            continue;
        }
        let first = text_records::plain_end(stream, at);
        let end = text_records::record_end(stream, first);
        done = take_record(
            desk,
            done,
            stream,
            at,
            end,
            first == end,
            store,
            reports,
            &mut faults,
            book,
        );
        if done.stopped {
            return done;
        }
        at = text_records::next_start(stream, end);
    }
    done
}

// A stream that ends before a record stops the load gives 0100.
pub fn close(reports: &mut [u64], count: Count, stopped: bool) -> Totals
    requires { Reportable count no_enddata 0 }
    ensures { closed result reports.new ≡ close_of count stopped reports.old }
{
    if stopped {
        return load_tell::totals(count);
    }
    load_tell::totals(load_tell::report(reports, count, NO_ENDDATA, 0))
}

// Loads a stream, under the numbers that it has.
pub fn run(desk: Desk, store: &mut [u8], stream: &[u8], reports: &mut [u64]) -> Totals
    requires fitting { Fitting desk store.old }
    requires stream_len_bound { length stream.now ≤ most_records }
    ensures { run_loaded result store.new reports.new ≡ loaded_of (load_of desk store.old stream.now) reports.old }
{
    let done = walk(desk, store, stream, reports, &mut AsGiven);
    close(reports, done.count, done.stopped)
}
