// Sessions of `tidy` from outside, one after the other: standard input has for each a header line, its name and the length of its input in
// bytes, and then that input. Prints for each its header line behind `== `, and what `tidy` prints of it. `tools/sessions` makes the files.
#![tactic(auto)]

ghost use Rattle.std.specs.Prelude.{◌≡◌, ◌<◌, IfOk, length, replicate};
ghost use Rattle.tidy_vectors.specs.Case.{length_given, case_at};

use std::io;

// Where a session's header line ends, and where its input begins and ends.
#[derive(Clone, Copy)]
pub struct Case {
    line: usize,
    body: usize,
    end: usize,
}

// Room for all the sessions of the file.
fn buffer() -> [u8; 131072]
    ensures len { 131072 ≡ length result }
    ensures zero { result ≡ replicate 131072 0 }
{
    [0; 131072]
}

// The length that a header line gives: its second field.
fn length_in(line: &[u8]) -> usize
    ensures { result ≡ length_given line.now }
{
    let name = text_fields::field_at(line, 0);
    let count = text_fields::field_at(line, name.end);
    match value::read_integer(text_fields::word(line, count)) {
        None => 0,
        Some(n) => cells::place(n),
    }
}

// The session at a place. One that is cut off ends with the file.
fn case_at(input: &[u8], at: usize) -> Case
    requires { at < length input.now }
    ensures { result ≡ case_at input.now at }
{
    let line = text_records::record_end(input, at);
    let body = (line + 1).min(input.len());
    let count = length_in(&input[at..line]).min(input.len() - body);
    Case {
        line,
        body,
        end: body + count,
    }
}

fn print_header(rt: &impl Print, line: &[u8]) -> io::Result<()> {
    rt.write_all(b"== ")?;
    rt.write_all(line)?;
    rt.write_all(b"\n")
}

fn print_tidy(rt: &impl Print, input: &[u8]) -> io::Result<()> {
    let mut out = tidy_session::buffer();
    let end = tidy_session::tidy(input, &mut out);
    rt.write_all(&out[..end])
}

// Prints the session at a place, and answers where the next begins.
fn print_case(rt: &impl Print, input: &[u8], at: usize) -> io::Result<usize>
    requires { at < length input.now }
    ensures { IfOk result (λ end. end ≡ (case_at input.now at).end) }
{
    let c = case_at(input, at);
    let line = c.line;
    let body = c.body;
    let end = c.end;
    print_header(rt, &input[at..line])?;
    print_tidy(rt, &input[body..end])?;
    Ok(end)
}

fn print_cases(rt: &impl Print, input: &[u8]) -> io::Result<()> {
    let mut at = 0;
    while at < input.len() {
        at = print_case(rt, input, at)?;
    }
    Ok(())
}

fn main(rt: HostRuntime) -> io::Result<()> {
    let mut input = buffer();
    let n = input_room::read_full(&mut rt.stdin(), &mut input)?;
    print_cases(&rt, &input[..n])
}
