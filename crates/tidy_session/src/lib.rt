// What `tidy` prints, as one function on bytes (paper 01, "The written stream", the program `tidy`): the load of its input into an empty
// house small desk, told, and the show that is kept, written.
#![tactic(auto)]

ghost use Rattle.std.specs.Prelude.{◌≡◌, ◌++◌, ◌+◌, ◌≤◌, length, replicate};
ghost use Rattle.store_desk.specs.Size.{house};
ghost use Rattle.store.specs.Good.{Ready};
ghost use Rattle.text_room.specs.Wrote.{wrote, wrote_at};
ghost use Rattle.tidy_printed.specs.Text.{told_text};
ghost use Rattle.tidy_session.specs.Session.{shown_text, read_in, answer_text, TidyPromise};

use load::Totals;
use store_desk::{Desk, Refusal};

// The longest input that is read, in bytes.
const MOST_INPUT: usize = 65535;

// The longest written stream that is printed, in bytes.
const MOST_SHOWN: usize = 65535;

// The written stream of a store at a place, or the length that it needs; answers the place after it. No other answer of `write` can occur:
// the desk is in range, the store long enough and in good form, and no show of the house small desk is longer than 262,143 bytes.
fn put_shown(out: &mut [u8], at: usize, store: &[u8]) -> usize
    requires ready { Ready house store.now }
    requires at_in_bounds { at + 65535 ≤ length out.old }
    ensures { wrote result out.new ≡ wrote_at out.old at (shown_text store.now) }
{
    match show::write(Desk::HOUSE, store, &mut out[at..at + MOST_SHOWN]) {
        Ok(n) => at + n,
        Err(refusal) => match refusal {
            Refusal::R6(n) => tidy_printed::put_needed(out, at, n as u32),
            Refusal::R1 => at,
            Refusal::R2 => at,
            Refusal::R3 => at,
            Refusal::R4a(_) => at,
            Refusal::R4b(_) => at,
            Refusal::R4c(_) => at,
            Refusal::R5 => at,
            Refusal::R7 => at,
        },
    }
}

// What a load is told as, and the show behind it.
fn put_answer(out: &mut [u8], t: Totals, reports: &[u64], store: &[u8]) -> usize
    requires ready { Ready house store.now }
    requires reports_len_bound { length reports.now ≤ 1024 }
    requires in_bounds { 83039 ≤ length out.old }
    ensures { wrote result out.new
        ≡ wrote_at out.old 0 (told_text reports.now t ++ shown_text store.now) }
{
    let at = tidy_printed::put_told(out, 0, reports, t);
    put_shown(out, at, store)
}

// The load of a stream into an empty house small desk. It is never turned away: the store is long enough and empty, and the stream is short.
fn put_load(stream: &[u8], out: &mut [u8]) -> usize
    requires stream_len_bound { length stream.now ≤ 65535 }
    requires in_bounds { 83039 ≤ length out.old }
    ensures { wrote result out.new ≡ wrote_at out.old 0 (answer_text (read_in stream.now)) }
{
    let mut store = [0u8; 35136];
    let mut reports = [0u64; 1024];
    match show::load(Desk::HOUSE, &mut store, stream, &mut reports) {
        Ok(t) => put_answer(out, t, &reports, &store),
        Err(_) => 0,
    }
}

// Room for all that `tidy` can print: 17 bytes for each of the 1,024 reports that the list holds (a column of 7 bits has three digits at
// most), 96 for the END line, and 65,535 for the stream.
pub fn buffer() -> [u8; 83039]
    ensures len { 83039 ≡ length result }
    ensures zero { result ≡ replicate 83039 0 }
{
    [0; 83039]
}

// Writes what `tidy` prints at the start of `out`, and answers its length.
pub fn tidy(input: &[u8], out: &mut [u8]) -> usize
    requires { 83039 ≤ length out.old }
    ensures { TidyPromise input.now out.old result out.new }
{
    if MOST_INPUT < input.len() {
        return text_room::put_text(out, 0, b"input too long\n");
    }
    put_load(input, out)
}
