// LOAD/UNLOAD: what moves between the slots and the drive.
ghost use Rattle.std.specs.Prelude.{◌≡◌, true, ◌<◌, length};
ghost use Rattle.changer.specs.Slot.{slot_at, put_back};
ghost use Rattle.changer.specs.Mechanism.{returned_deck, loads, unloads, load_unload};
ghost use Rattle.changer.specs.ChangerPacket.{mechanism_of};
ghost use Rattle.changer.specs.MechanismLaws.{Acted, Homed, still_with, failed_with};

use crate::slots::{empty_slot, full_slot, moving, slot_of, staying};
use crate::{Changer, Moves, Slot};
use command::done::{Done, done_with};
use command::tray::moving as shifted;
use deck::Deck;
use gate::fault::Fault;
use ground::number::wide;

// What a packet of the changer's own comes to: what it does to the deck, the home afterwards, and what becomes of the slots.
#[derive(Clone, Copy)]
pub struct Act {
    pub done: Done,
    pub home: u8,
    pub moves: Option<Moves>,
}

// Nothing moves.
pub(crate) fn still(deck: Deck, home: u8) -> Act
    ensures { result ≡ still_with deck home }
{
    Act {
        done: done_with(deck),
        home,
        moves: staying(),
    }
}

// A fault: nothing moves.
pub(crate) fn failed(f: Fault, home: u8) -> Act
    ensures { result ≡ failed_with f home }
{
    Act {
        done: Err(f),
        home,
        moves: staying(),
    }
}

// The deck after a return: it opens, its disc goes, and it is closed again.
fn returned_deck(m: Deck) -> Deck
    ensures { result ≡ returned_deck m }
{
    let out = m.opening();
    let shut = out.deck.with_disc(false).closing();
    shut.deck
}

// Once the drive's disc is back at its home, slot i holds one.
fn holds(slots: &[Slot], home: usize, i: usize) -> bool
    requires { home < length slots.now }
    ensures { result ≡ (slot_at (put_back slots.now home) i).present }
{
    i == home || slot_of(slots, i).present
}

// Unload: the drive's disc goes back to its home, if it has one.
fn unload(c: Changer, slots: &[Slot]) -> Act
    requires { Homed (mechanism_of c slots.now) }
    ensures { Acted (unloads (mechanism_of c slots.now)) (mechanism_of c slots.now) result }
{
    let deck = c.drive.deck;
    if deck.disc_in {
        let at = wide(c.home);
        let s = full_slot(slot_of(slots, at));
        return Act {
            done: done_with(returned_deck(deck)),
            home: 0,
            moves: moving(at, s, at, s),
        };
    }
    still(deck, c.home)
}

// Load with a disc in the drive: that one goes back first.
fn exchange(c: Changer, slots: &[Slot], i: u8) -> Act
    requires { (c.drive.deck.disc_in ≡ true) × Homed (mechanism_of c slots.now) × (i < length slots.now) }
    ensures { Acted (loads i (mechanism_of c slots.now)) (mechanism_of c slots.now) result }
{
    let at = wide(c.home);
    if holds(slots, at, wide(i)) {
        let back = full_slot(slot_of(slots, at));
        let next = returned_deck(c.drive.deck).with_disc(true).closing();
        return Act {
            done: shifted(next),
            home: i,
            moves: moving(at, back, wide(i), empty_slot()),
        };
    }
    unload(c, slots)
}

// Load: the drive's disc goes back, and that of slot i is taken, if it holds one.
fn load(c: Changer, slots: &[Slot], i: u8) -> Act
    requires { Homed (mechanism_of c slots.now) × (i < length slots.now) }
    ensures { Acted (loads i (mechanism_of c slots.now)) (mechanism_of c slots.now) result }
{
    let deck = c.drive.deck;
    if deck.disc_in {
        return exchange(c, slots, i);
    }
    let at = wide(i);
    let s = slot_of(slots, at);
    if s.present {
        let next = deck.with_disc(true).closing();
        return Act {
            done: shifted(next),
            home: i,
            moves: moving(at, empty_slot(), at, empty_slot()),
        };
    }
    still(deck, c.home)
}

// LOAD/UNLOAD: the pair, the slot and the lock are tested, in this order.
pub(crate) fn load_unload(lo: bool, start: bool, i: u8, c: Changer, slots: &[Slot]) -> Act
    requires { Homed (mechanism_of c slots.now) }
    ensures { Acted (load_unload lo start i (mechanism_of c slots.now)) (mechanism_of c slots.now) result }
{
    if !lo || slots.len() <= wide(i) {
        return failed(Fault::BadField, c.home);
    }
    if c.drive.deck.lock {
        return failed(Fault::RemovalPrevented, c.home);
    }
    if start {
        return load(c, slots, i);
    }
    unload(c, slots)
}
