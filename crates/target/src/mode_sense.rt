// MODE SENSE: what the packet asks for, and the answer.
ghost use Rattle.std.specs.Prelude.{◌≡◌, ◌≤◌, length};
ghost use Rattle.table.specs.Layout.{bound};
ghost use Rattle.command.specs.Command.{byte, length_in};
ghost use Rattle.mode.specs.ModeSense.{mode_sense};
ghost use Rattle.target.specs.Perform.{Performed};

use crate::perform::answer;
use command::done::Done;
use deck::Deck;
use ground::number::word16;
use mode::mode_sense::{mode_bytes, page_shown};

// The packet's byte 2 decides; the values that it asks for are laid, cut to the allocation length.
pub(crate) fn mode_sense(p: &[u8; 12], m: Deck, mem: &mut [u8]) -> Done
    requires { bound ≤ length mem.old }
    ensures { Performed (mode_sense (byte p.now 2) (length_in p.now) m) mem.old result mem.new }
{
    let g = page_shown(p[2], m.page)?;
    answer(false, m, &mode_bytes(g), word16(p[7], p[8]), mem)
}
