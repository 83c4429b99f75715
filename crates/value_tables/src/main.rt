// Tables C-1 and C-2 of the standard against the percent table: which entry rests on which, and which on the formula alone.
// Input: a line for each percentage, of ten characters: the percentage, its cell of Table C-2 and its starred cell of Table C-1,
// each as the text of document 001 has it, `--` where it has none.
#![tactic(auto)]

ghost use Rattle.std.specs.Prelude.{◌≡◌, ◌<◌, ◌≤◌, length};
ghost use Rattle.value.specs.Integer.{run_of};
ghost use Rattle.value_tables.specs.Says.{says_of};

use std::io;

const LINE: usize = 10;

const LINES: usize = 101;

const SECOND: usize = 4;

const FIRST: usize = 7;

// Does a cell, as the document's text has it, say v? A cell with a character that is no digit says nothing.
#[tactic(auto, unfolding(crate::specs::Says::says_of))]
fn says(cell: &[u8], v: u8) -> bool
    ensures { result ≡ says_of (run_of 16 cell.now) v }
{
    value::run(cell, 16) == Some(u32::from(v))
}

// What an entry rests on.
fn basis(first: bool, second: bool) -> &'static str {
    match (first, second) {
        (true, true) => "C-1 C-2",
        (true, false) => "C-1",
        (false, true) => "C-2",
        (false, false) => "formula",
    }
}

// The line of one percentage.
fn print_entry(rt: &impl Print, p: usize, line: &[u8]) -> io::Result<()>
    requires p_bound { p < 101 }
    requires line_length { length line.now ≡ 10 }
{
    let v = value_level::percent_byte(p);
    let basis = basis(
        says(&line[FIRST..FIRST + 2], v),
        says(&line[SECOND..SECOND + 2], v),
    );
    println!(rt; "{p} {v:02x} {basis}")
}

fn print_entries(rt: &impl Print, text: &[u8]) -> io::Result<()>
    requires { length text.now ≡ 1010 }
{
    for (p, line) in text.chunks_exact(LINE).enumerate() {
        print_entry(rt, p, line)?;
    }
    Ok(())
}

// The room has place for more than the tables, which tells another size.
fn main(rt: HostRuntime) -> io::Result<()> {
    let mut buffer = [0u8; 4096];
    let n = input_room::read_full(&mut rt.stdin(), &mut buffer)?;
    let text = &buffer[..n];
    if text.len() == LINES * LINE {
        return print_entries(&rt, text);
    }
    println!(rt; "the tables have another size")
}
