// START/STOP UNIT, PREVENT/ALLOW, and a drive with no disc.
ghost use Rattle.std.specs.Prelude.{◌≡◌};
ghost use Rattle.command.specs.Tray.{moving, eject, load, start_stop, prevent, no_medium};
ghost use Rattle.command.specs.Done.{done_of};

use crate::done::{Done, Went, done_with, went_with};
use crate::field::bit;
use deck::{Deck, Shifted};
use gate::fault::Fault;

// The tray moved.
pub fn moving(s: Shifted) -> Done
    ensures { result ≡ done_of (moving s) }
{
    Ok(Went {
        loading: s.loading,
        ..went_with(s.deck)
    })
}

// Eject: an open tray is GOOD; a closed one opens, unless locked.
fn eject(m: Deck) -> Done
    ensures { result ≡ done_of (eject m) }
{
    if m.tray_open {
        return done_with(m);
    }
    if m.lock {
        return Err(Fault::RemovalPrevented);
    }
    moving(m.opening())
}

// Load: closes an open tray; a closed one is GOOD.
fn load(m: Deck) -> Done
    ensures { result ≡ done_of (load m) }
{
    if m.tray_open {
        return moving(m.closing());
    }
    done_with(m)
}

// START/STOP UNIT: with LoEj the tray moves, else nothing does.
pub fn start_stop(b: u8, m: Deck) -> Done
    ensures { result ≡ done_of (start_stop b m) }
{
    if !bit::<1>(b) {
        return done_with(m);
    }
    if bit::<0>(b) {
        return load(m);
    }
    eject(m)
}

// PREVENT/ALLOW: the lock becomes bit 0.
pub fn prevent(b: u8, m: Deck) -> Done
    ensures { result ≡ done_of (prevent b m) }
{
    done_with(m.with_lock(bit::<0>(b)))
}

// No medium: the tray tells which.
pub fn no_medium(m: Deck) -> Fault
    ensures { result ≡ no_medium m }
{
    if m.tray_open {
        return Fault::NoMediumOpen;
    }
    Fault::NoMediumClosed
}
