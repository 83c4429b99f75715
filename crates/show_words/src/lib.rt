// What people read beside a show, once for every program: the text of a time, the text of a condition, its severity (paper 01, "The written
// stream"; Appendix B). A text goes into a lent output; where there is no room for it the answer is R6 with the length needed.
#![tactic(auto)]

ghost use Rattle.std.specs.Prelude.{◌≡◌, ◌≤◌, length};
ghost use Rattle.value_written.specs.Text.{time_text};
ghost use Rattle.show.specs.Calls.{most_bytes};
ghost use Rattle.show_words.specs.Words.{severity_of, condition_text, TextPromise};

use store_desk::Refusal;

// A text, or the room that it needs.
fn put(text: &[u8], out: &mut [u8]) -> Result<usize, Refusal>
    requires { length text.now ≤ most_bytes }
    ensures { TextPromise text.now out.old result out.new }
{
    if out.len() < text.len() {
        return Err(Refusal::R6(text.len()));
    }
    Ok(text_room::put_text(out, 0, text))
}

// A time as the written stream has it: `3`, `1:30`, `2:00:10.5`.
pub fn time_text(tenths: u32, out: &mut [u8]) -> Result<usize, Refusal>
    ensures { TextPromise (time_text tenths) out.old result out.new }
{
    let n = value_written::time_length(tenths);
    if out.len() < n {
        return Err(Refusal::R6(n));
    }
    Ok(value_written::put_time(out, 0, tenths))
}

// The standard's text for a condition that a load can report, or for the closing number 0; nothing for any other number.
#[tactic(auto, unfolding(crate::specs::Words::condition_text, crate::specs::Words::condition_rows, crate::specs::Words::warning_rows, crate::specs::Words::text_in))]
fn standard_text(condition: u32) -> &'static [u8]
    ensures text { result.now ≡ condition_text condition }
    ensures short { length result.now ≤ most_bytes }
{
    match condition {
        0 => b"Data stream successfully processed",
        21 => b"Cue memory exhausted",
        22 => b"Group memory exhausted",
        41 => b"Invalid cue or group number",
        42 => b"Cue or group number too large",
        43 => b"Page out of range",
        44 => b"Submaster number out of range",
        51 => b"Groups not supported",
        52 => b"Submasters not supported",
        91 => b"Encountered record longer than 80 characters",
        99 => b"Ident mismatch prohibits processing",
        100 => b"Data stream terminated without ENDDATA",
        151 => b"Undefined standard keyword",
        152 => b"Wrong secondary keyword",
        171 => b"Invalid integer",
        172 => b"Invalid hexadecimal value",
        201 => b"Channel out of range",
        203 => b"Dimmer out of range",
        221 => b"Invalid level",
        231 => b"Patch page skipped",
        241 => b"Invalid time",
        701 => b"Ignored character with high-bit set",
        702 => b"Ignored non-printing character",
        _ => b"",
    }
}

// That text, put into the output.
pub fn condition_text(condition: u32, out: &mut [u8]) -> Result<usize, Refusal>
    ensures { TextPromise (condition_text condition) out.old result out.new }
{
    put(standard_text(condition), out)
}

// The standard's letter for a condition's severity: E error, W warning, I (of the closing number 0 alone) information.
#[tactic(auto, unfolding(crate::specs::Words::severity_of, load::specs::Condition::is_error))]
pub fn severity(condition: u32) -> u8
    ensures { result ≡ severity_of condition }
{
    match condition {
        0 => b'I',
        70..=149 => b'E',
        _ => b'W',
    }
}
