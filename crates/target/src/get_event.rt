// GET EVENT STATUS NOTIFICATION: what the packet asks for, and the answer.
ghost use Rattle.std.specs.Prelude.{◌≡◌, ◌≤◌, length};
ghost use Rattle.table.specs.Layout.{bound};
ghost use Rattle.command.specs.Command.{byte, length_in};
ghost use Rattle.event.specs.EventAnswer.{get_event};
ghost use Rattle.target.specs.Perform.{Performed};

use crate::perform::answer;
use command::done::Done;
use command::field::bit;
use deck::Deck;
use event::event_answer::{class_bytes, cleared, none_bytes};
use event::event_class::{NO_CLASS, class_for};
use ground::number::word16;

// A packet that does not poll is a bad field; else the class picked is answered, cut to the allocation length.
pub(crate) fn get_event(p: &[u8; 12], m: Deck, mem: &mut [u8]) -> Done
    requires { bound ≤ length mem.old }
    ensures { Performed (get_event (byte p.now 1) (byte p.now 4) (length_in p.now) m) mem.old result mem.new }
{
    let bad = !bit::<0>(p[1]);
    let limit = word16(p[7], p[8]);
    let class = class_for(p[4], m.event);
    let next = cleared(class, limit, m);
    if class == NO_CLASS {
        return answer(bad, next, &none_bytes(), limit, mem);
    }
    answer(bad, next, &class_bytes(class, m), limit, mem)
}
