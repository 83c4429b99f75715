// Text written into a lent output at a place: the room that it needs, and what is left behind.
#![tactic(auto)]

ghost use Rattle.std.specs.Prelude.{◌≡◌};
ghost use Rattle.text_room.specs.Wrote.{wrote, wrote_at};
ghost use Rattle.text_room.specs.Room.{Room};

// Every `put` writes its text at a place and answers the place after it.
pub fn put_text(out: &mut [u8], at: usize, text: &[u8]) -> usize
    requires { Room out.old at text.now }
    ensures { wrote result out.new ≡ wrote_at out.old at text.now }
{
    let end = at + text.len();
    cells::copy(&mut out[at..end], text);
    end
}
