// The lines that `tidy` prints ahead of the written stream, or in its place (paper 01, "The written stream"), written into a lent output.
#![tactic(auto)]

ghost use Rattle.std.specs.Prelude.{◌≡◌};
ghost use Rattle.text_room.specs.Wrote.{wrote, wrote_at};
ghost use Rattle.text_room.specs.Room.{Room};
ghost use Rattle.tidy_printed.specs.Text.{report_text, reports_text, end_text, told_text, needed_text};
ghost use Rattle.tidy_printed.specs.Part.{fixed_text, tallies_text};

use load::Totals;

const DECIMAL: u32 = 10;

// A report's word: the record's number, the condition, the column, and bits that are zero.
const CONDITION_SPAN: u64 = 16384;

const COLUMN_SPAN: u64 = 128;

const ZERO_SPAN: u64 = 33554432;

const RECORD_DIGITS: usize = 5;

const CONDITION_DIGITS: usize = 4;

// Every `put` writes its text at a place and answers the place after it. Here so many digits behind a mark.
fn put_fixed(out: &mut [u8], at: usize, mark: &[u8], n: u32, count: usize) -> usize
    requires { Room out.old at (fixed_text mark.now count n) }
    ensures { wrote result out.new ≡ wrote_at out.old at (fixed_text mark.now count n) }
{
    let digits = text_room::put_text(out, at, mark);
    value_written::put_digits(out, digits, n, count, DECIMAL)
}

// `(00006:14) 0172`.
pub fn put_report(out: &mut [u8], at: usize, word: u64) -> usize
    requires { Room out.old at (report_text word) }
    ensures { wrote result out.new ≡ wrote_at out.old at (report_text word) }
{
    let blame = word / ZERO_SPAN;
    let fault = blame / COLUMN_SPAN;
    let number = (fault / CONDITION_SPAN) as u32;
    let condition = (fault % CONDITION_SPAN) as u32;
    let column = put_fixed(out, at, b"(", number, RECORD_DIGITS);
    let next = value_written::put_marked(out, column, b":", (blame % COLUMN_SPAN) as u32);
    let end = put_fixed(out, next, b") ", condition, CONDITION_DIGITS);
    text_room::put_text(out, end, b"\n")
}

pub fn put_reports(out: &mut [u8], at: usize, reports: &[u64]) -> usize
    requires { Room out.old at (reports_text reports.now) }
    ensures { wrote result out.new ≡ wrote_at out.old at (reports_text reports.now) }
{
    let mut next = at;
    let mut i = 0;
    while let Some(&word) = reports.get(i) {
        next = put_report(&mut *out, next, word);
        i += 1;
    }
    next
}

fn put_tallies(out: &mut [u8], at: usize, t: Totals) -> usize
    requires { Room out.old at (tallies_text t) }
    ensures { wrote result out.new ≡ wrote_at out.old at (tallies_text t) }
{
    let obeyed = value_written::put_marked(out, at, b" blank ", t.blank);
    let passed = value_written::put_marked(out, obeyed, b" obeyed ", t.obeyed);
    let dropped = value_written::put_marked(out, passed, b" passed ", t.passed);
    value_written::put_marked(out, dropped, b" dropped ", t.dropped)
}

pub fn put_end_line(out: &mut [u8], at: usize, t: Totals) -> usize
    requires { Room out.old at (end_text t) }
    ensures { wrote result out.new ≡ wrote_at out.old at (end_text t) }
{
    let tallies = put_fixed(out, at, b"END ", t.closing, CONDITION_DIGITS);
    let end = put_tallies(out, tallies, t);
    text_room::put_text(out, end, b"\n")
}

// What a load is told as: its stored reports, and the END line.
pub fn put_told(out: &mut [u8], at: usize, reports: &[u64], t: Totals) -> usize
    requires { Room out.old at (told_text reports.now t) }
    ensures { wrote result out.new ≡ wrote_at out.old at (told_text reports.now t) }
{
    let n = (t.reports as usize).min(reports.len());
    let end = put_reports(out, at, &reports[..n]);
    put_end_line(out, end, t)
}

pub fn put_needed(out: &mut [u8], at: usize, n: u32) -> usize
    requires { Room out.old at (needed_text n) }
    ensures { wrote result out.new ≡ wrote_at out.old at (needed_text n) }
{
    let end = value_written::put_marked(out, at, b"R6 ", n);
    text_room::put_text(out, end, b"\n")
}
