// MECHANISM STATUS: the header and four bytes a slot, laid into the response memory.
ghost use Rattle.std.specs.Prelude.{◌≡◌, ◌≤◌, length, take};
ghost use Rattle.ground.specs.Memory.{Laid};
ghost use Rattle.table.specs.Layout.{bound};
ghost use Rattle.changer.specs.Status.{slot_bytes, slot_tables, status_bytes, home_shown, mechanism_status};
ghost use Rattle.changer.specs.Slot.{most};
ghost use Rattle.changer.specs.ChangerPacket.{mechanism_of};
ghost use Rattle.changer.specs.MechanismLaws.{ActedOn};

use crate::load::Act;
use crate::slots::staying;
use crate::{Changer, Slot};
use command::done::{Went, went_with};
use ground::memory::copy_front;
use ground::number::bytes16;

// A slot's four bytes, laid into the rest of the response.
fn put_slot(s: Slot, rest: &mut [u8]) -> usize
    ensures { Laid rest.old (slot_bytes s) result rest.new }
{
    let full = [s.flags(), 0, 0, 0];
    copy_front(&full, rest)
}

// Each slot's, where the one before ended.
fn put_slots(slots: &[Slot], part: &mut [u8]) -> usize
    ensures { Laid part.old (slot_tables slots.now (length slots.now)) result part.new }
{
    let mut at = 0;
    for s in slots {
        at += put_slot(*s, &mut part[at..]);
    }
    at
}

// The whole answer, as far as the part holds it.
fn put_full(home: u8, slots: &[Slot], part: &mut [u8]) -> usize
    requires { length slots.now ≤ most }
    ensures { Laid part.old (status_bytes home slots.now) result part.new }
{
    let n = slots.len();
    let l = bytes16(4 * n);
    let full = [home, 0, 0, 0, 0, n as u8, l[0], l[1]];
    let mut at = copy_front(&full, part);
    at += put_slots(slots, &mut part[at..]);
    at
}

// The answer cut to the allocation length.
fn put_status(home: u8, slots: &[Slot], room: usize, mem: &mut [u8]) -> usize
    requires { length slots.now ≤ most }
    ensures { Laid mem.old (take room (status_bytes home slots.now)) result mem.new }
{
    let e = room.min(mem.len());
    put_full(home, slots, &mut mem[..e])
}

// The home slot of the disc in the drive, or 0, as the answer shows it.
fn home_shown(c: Changer, slots: &[Slot]) -> u8
    ensures { result ≡ home_shown (mechanism_of c slots.now) }
{
    if c.drive.deck.disc_in {
        return c.home;
    }
    0
}

// MECHANISM STATUS: nothing moves.
pub(crate) fn mechanism_status(limit: usize, c: Changer, slots: &[Slot], mem: &mut [u8]) -> Act
    requires { (bound ≤ length mem.old) × (length slots.now ≤ most) }
    ensures { ActedOn (mechanism_status limit (mechanism_of c slots.now)) (mechanism_of c slots.now) mem.old result mem.new }
{
    let deck = c.drive.deck;
    let len = put_status(home_shown(c, slots), slots, limit, mem);
    Act {
        done: Ok(Went {
            len,
            ..went_with(deck)
        }),
        home: c.home,
        moves: staying(),
    }
}
