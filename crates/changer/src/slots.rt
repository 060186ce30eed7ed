// What is asked of the slots, and what becomes of them.
ghost use Rattle.std.specs.Prelude.{◌≡◌, true};
ghost use Rattle.changer.specs.Slot.{slot_at, empty_slot, slot};
ghost use Rattle.changer.specs.Moves.{staying, moving};
ghost use Rattle.changer.specs.Changer.{has_home, is_in_order};

use crate::{Changer, Moves, Slot};
use ground::number::wide;

// The most slots that a changer has.
pub const MOST: usize = 31;

// A slot without a disc, not changed.
pub(crate) fn empty_slot() -> Slot
    ensures { result ≡ empty_slot }
{
    Slot::default()
}

// Slot i; past the last an empty one.
pub(crate) fn slot_of(slots: &[Slot], i: usize) -> Slot
    ensures { result ≡ slot_at slots.now i }
{
    slots.get(i).copied().unwrap_or(empty_slot())
}

// The slot with a disc put back: its mark of a change is kept.
pub(crate) fn full_slot(s: Slot) -> Slot
    ensures { result ≡ slot true s.changed }
{
    Slot { present: true, ..s }
}

// No slot changes.
pub(crate) fn staying() -> Option<Moves>
    ensures { result ≡ staying }
{
    None
}

// What goes to two places, which may be one.
pub(crate) fn moving(a: usize, x: Slot, b: usize, y: Slot) -> Option<Moves>
    ensures { result ≡ moving a x b y }
{
    Some(Moves { a, x, b, y })
}

// The home of a disc in the drive is not beyond the last slot and not occupied.
fn has_home(home: usize, slots: &[Slot]) -> bool
    ensures { result ≡ has_home home slots.now }
{
    home < slots.len() && !slot_of(slots, home).present
}

// Refusal 11 does not meet the changer with these slots.
pub(crate) fn is_in_order(c: Changer, slots: &[Slot]) -> bool
    ensures { result ≡ is_in_order c slots.now }
{
    let n = slots.len();
    if n == 0 || MOST < n || c.drive.deck.tray_open {
        return false;
    }
    !c.drive.deck.disc_in || has_home(wide(c.home), slots)
}
