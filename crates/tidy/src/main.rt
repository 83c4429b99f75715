// Reads a show from standard input into an empty house small desk; prints its reports, the END line and the written stream (paper 01,
// "The written stream"). `tidy_session::tidy` says what is printed, of the bytes that are read.
#![tactic(auto)]

ghost use Rattle.std.specs.Prelude.{IfSome, OnOk};
ghost use Rattle.std.specs.Io.KnownBytes.{Appends};
ghost use Rattle.tidy_session.specs.Session.{tidy_text};

use std::io;
use std::io::{Read, Write};

// Reads a show to its end, and writes its session. The input has room for one byte more than is taken, which tells too much.
pub fn session<R: Read, W: Write>(from: &mut R, to: &mut W) -> io::Result<()>
    ensures { OnOk result (IfSome (R.remaining from.old) (λ show. Appends (W.contents to.old) (W.contents to.new) (tidy_text show))) }
{
    let mut input = [0u8; 65536];
    let n = input_room::read_full(from, &mut input)?;
    let mut out = tidy_session::buffer();
    let end = tidy_session::tidy(&input[..n], &mut out);
    to.write_all(&out[..end])
}

fn main(rt: HostRuntime) -> io::Result<()> {
    session(&mut rt.stdin(), &mut io::writer(&rt))
}
