// What becomes of a record's outcome: the counters of a load, and the reports in the lent list (paper 01, "Reports, tallies, closing
// number"; §4.2; paper 02, C-11). Every load counts and tells with these.
#![tactic(auto)]

ghost use Rattle.std.specs.Prelude.{◌≡◌, [], ◌∷◌, true, ◌||◌, ◌≤◌, ◌<◌, length, set};
ghost use Rattle.text_records.specs.Received.{longest};
ghost use Rattle.text_records.specs.Cleaning.{column_of};
ghost use Rattle.load.specs.Condition.{is_error, over_long_record};
ghost use Rattle.load.specs.Item.{blame_none};
ghost use Rattle.load.specs.Step.{outcome_faults};
ghost use Rattle.load.specs.Run.{stops as stops_at, condition_span, report_word};
ghost use Rattle.load.specs.Fits.{fault_in};
ghost use Rattle.load_tell.specs.Count.{count_of, closing_by, totals_by, tallied, counted as counted_of, told, told_as, told_if, told_one, told_all};
ghost use Rattle.load_tell.specs.Count.{faults_as, said_of, most_reports, Reportable, Tellable, Marred, Countable};
ghost use Rattle.load.specs.Fits.{most_records};

use cells::place;
use load::{Fault, Outcome, Totals};

// What was read so far: the records and reports, the records of each class, and the last error and warning.
#[derive(Clone, Copy, Default)]
pub struct Count {
    pub records: u32,
    pub reports: u32,
    pub blank: u32,
    pub obeyed: u32,
    pub passed: u32,
    pub dropped: u32,
    pub error: u32,
    pub warning: u32,
}

const IGNORED_HIGH: u32 = 701;

const IGNORED_CONTROL: u32 = 702;

const OVER_LONG_RECORD: u32 = 91;

// The bits of a report's condition, those of its column, and those below that are zero.
const CONDITION_BITS: u32 = 14;

const COLUMN_BITS: u32 = 7;

const ZERO_BITS: u32 = 25;

// A fault's place stands above its condition.
const FAULT_SPAN: u32 = 16384;

// Before the first record.
#[tactic(auto, unfolding(crate::specs::Count::count_of, load::specs::Run::tally_of, load::specs::Run::last_of))]
pub fn nothing_read() -> Count
    ensures { result ≡ count_of [] [] }
{
    Count::default()
}

// ---- reports

// Appendix B: 0070 to 0149.
#[tactic(auto, unfolding(load::specs::Condition::is_error))]
fn is_error(condition: u32) -> bool
    ensures { result ≡ is_error condition }
{
    (70..=149).contains(&condition)
}

// One more report, the last error or warning with it.
#[tactic(auto, unfolding(crate::specs::Count::counted, load::specs::Condition::is_error))]
fn counted(count: Count, condition: u32) -> Count
    requires { count.reports < most_reports }
    ensures { result ≡ counted_of count condition }
{
    let mut n = count;
    n.reports += 1;
    if is_error(condition) {
        n.error = condition;
    } else {
        n.warning = condition;
    }
    n
}

// A full list stores no more; entries not stored to keep their old values. (By `get_mut` a proof would know only the list's length.)
fn store_word(reports: &mut [u64], at: usize, word: u64)
    ensures { reports.new ≡ set reports.old at word }
{
    if at < reports.len() {
        reports[at] = word;
    }
}

// 18 bits, 14, 7, and 25 that are zero.
fn report_word(number: u32, condition: u32, column: usize) -> u64
    requires { (number ≤ most_records) × (condition < condition_span) × (column ≤ longest) }
    ensures { result ≡ report_word (record { number = number; condition = condition; column = column }) }
{
    let number = u64::from(number);
    let condition = u64::from(condition);
    let column = column as u64;
    ((number << CONDITION_BITS | condition) << COLUMN_BITS | column) << ZERO_BITS
}

// The one place where a report is made and written.
#[tactic(auto, unfolding(crate::specs::Count::told_as))]
pub fn report(reports: &mut [u64], count: Count, condition: u32, column: usize) -> Count
    requires { Reportable count condition column }
    ensures { told result reports.new ≡ told_as (told count reports.old) condition column }
{
    let word = report_word(count.records, condition, column);
    store_word(reports, place(count.reports), word);
    counted(count, condition)
}

// No field is blamed.
fn report_if(reports: &mut [u64], count: Count, so: bool, condition: u32) -> Count
    requires { so ≡ true → Reportable count condition 0 }
    ensures { told result reports.new ≡ told_if (told count reports.old) so condition }
{
    if so {
        report(reports, count, condition, 0)
    } else {
        count
    }
}

// A place in the text is told as its column in the record as received. Where nothing is ignored they are the same.
#[tactic(auto, using(crate::proofs::Telling::place_told))]
fn column_of(received: &[u8], marred: bool, place: usize) -> usize
    requires marred { Marred marred received.now }
    requires place_in_bounds { place ≤ length received.now }
    ensures { result ≡ column_of received.now place }
{
    if marred {
        text_records::column(received, place)
    } else {
        place
    }
}

// One fault, under the column of the field that it blames.
fn report_fault(
    reports: &mut [u64],
    count: Count,
    received: &[u8],
    marred: bool,
    fault: Fault,
) -> Count
    requires tellable { Tellable count received.now (fault ∷ []) }
    requires marred { Marred marred received.now }
    ensures { told result reports.new ≡ told_one received.now (told count reports.old) fault }
{
    let column = column_of(received, marred, fault.place);
    report(reports, count, fault.condition, column)
}

// ENDDATA stops a load without a report. For a dropped record, of which a bad stream has many, what `column_of` tests is tested here.
#[tactic(auto, unfolding(load::specs::Step::outcome_faults, crate::specs::Count::told_all))]
#[inline(always)]
fn report_outcome(
    reports: &mut [u64],
    count: Count,
    received: &[u8],
    marred: bool,
    outcome: Outcome,
) -> Count
    requires tellable { Tellable count received.now (outcome_faults outcome) }
    requires marred { Marred marred received.now }
    ensures { told result reports.new ≡ told_all received.now (told count reports.old) (outcome_faults outcome) }
{
    match outcome {
        Outcome::Blank
        | Outcome::Passed
        | Outcome::Obeyed
        | Outcome::Stopped(Fault { condition: 0, .. }) => count,
        Outcome::Dropped(f) if !marred => report(reports, count, f.condition, f.place),
        Outcome::Dropped(f) | Outcome::Stopped(f) => {
            report_fault(reports, count, received, marred, f)
        }
    }
}

// A fault in one word: its place above the condition's 14 bits.
fn fault_in(word: u32) -> Fault
    ensures { result ≡ fault_in word }
{
    Fault {
        condition: word % FAULT_SPAN,
        place: (word / FAULT_SPAN) as usize,
    }
}

// The items that a record dropped.
fn report_faults(
    reports: &mut [u64],
    count: Count,
    received: &[u8],
    marred: bool,
    faults: &[u32],
) -> Count
    requires tellable { Tellable count received.now (faults_as faults.now) }
    requires marred { Marred marred received.now }
    ensures { told result reports.new ≡ told_all received.now (told count reports.old) (faults_as faults.now) }
{
    let mut n = count;
    for &word in faults {
        n = report_fault(reports, n, received, marred, fault_in(word));
    }
    n
}

// ---- tallies

// One more record, in one tally: ENDDATA is obeyed, and what 0091 or 0099 stopped is dropped.
#[tactic(auto, unfolding(crate::specs::Count::tallied, load::specs::Run::class_of, load::specs::Run::eq_class))]
pub fn tally(count: Count, outcome: Outcome) -> Count
    requires { Countable count }
    ensures { result ≡ tallied count outcome }
{
    let mut n = count;
    n.records += 1;
    match outcome {
        Outcome::Blank => n.blank += 1,
        Outcome::Passed => n.passed += 1,
        Outcome::Obeyed | Outcome::Stopped(Fault { condition: 0, .. }) => n.obeyed += 1,
        Outcome::Dropped(_) | Outcome::Stopped(_) => n.dropped += 1,
    }
    n
}

// §4.2: the last error, else the last warning, else 0.
#[tactic(auto, unfolding(crate::specs::Count::closing_by))]
fn closing(count: Count) -> u32
    ensures { result ≡ closing_by count }
{
    if count.error == 0 {
        count.warning
    } else {
        count.error
    }
}

#[tactic(auto, unfolding(crate::specs::Count::totals_by, crate::specs::Count::closing_by))]
pub fn totals(count: Count) -> Totals
    ensures { result ≡ totals_by count }
{
    Totals {
        reports: count.reports,
        blank: count.blank,
        obeyed: count.obeyed,
        passed: count.passed,
        dropped: count.dropped,
        closing: closing(count),
    }
}

// ---- a record

// ENDDATA, 0091 and 0099 stop a load.
#[tactic(auto, unfolding(load::specs::Run::stops))]
pub fn stops(outcome: Outcome) -> bool
    ensures { result ≡ stops_at outcome }
{
    matches!(outcome, Outcome::Stopped(_))
}

// A record's outcome tallied, and its faults reported: ignored characters, the outcome's, the dropped items'. Nearly every record has no
// ignored character, and does not pay for those that have (one way for both costs a dense show 1.3 % more instructions). In line in the walk of
// either load, where every record comes by.
#[inline(always)]
pub fn tell(
    reports: &mut [u64],
    count: Count,
    received: &[u8],
    high: bool,
    control: bool,
    outcome: Outcome,
    faults: &[u32],
) -> Count
    requires countable { Countable count }
    requires tellable { Tellable (tallied count outcome) received.now (said_of high control outcome faults.now) }
    requires marred { Marred (high || control) received.now }
    ensures { told result reports.new ≡ told_all received.now (told (tallied count outcome) reports.old) (said_of high control outcome faults.now) }
{
    let a = tally(count, outcome);
    if high || control {
        let b = report_if(reports, a, high, IGNORED_HIGH);
        let c = report_if(reports, b, control, IGNORED_CONTROL);
        let d = report_outcome(reports, c, received, true, outcome);
        report_faults(reports, d, received, true, faults)
    } else {
        let d = report_outcome(reports, a, received, false, outcome);
        report_faults(reports, d, received, false, faults)
    }
}

// An over-long record stops the load, whatever its characters are.
#[tactic(auto, unfolding(crate::specs::Count::tallied))]
pub fn tell_long(reports: &mut [u64], count: Count) -> Count
    requires countable { Countable count }
    requires reports_le_most_records { count.reports ≤ most_records }
    ensures { told result reports.new ≡ told_as (told (tallied count (Outcome.Stopped (blame_none over_long_record))) reports.old) over_long_record 0 }
{
    let n = tally(count, Outcome::Stopped(load::blameless(OVER_LONG_RECORD)));
    report(reports, n, OVER_LONG_RECORD, 0)
}
