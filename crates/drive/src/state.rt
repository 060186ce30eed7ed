// The state: an attention unit beside the deck. Each call takes it by value and hands back the next one.
ghost use Rattle.std.specs.Prelude.{◌≡◌};
ghost use Rattle.drive.specs.State.{is_known_state, with_deck, shift, power_on_with, power_on, power_on_without_change, moves, refuse, button, lay, lift, move_on};

use attention::Unit;
use attention::sense::is_known;
use deck::{Deck, PRESSED, Shifted, is_event};
use page::is_setting;

#[repr(C)]
#[derive(Clone, Copy)]
pub struct Drive {
    pub unit: Unit,
    pub deck: Deck,
}

// A call's answer: the refusal's number or 0, and the next state. (C interface: C reads the number.)
#[repr(C)]
#[derive(Clone, Copy)]
pub struct Moved {
    pub number: u8,
    pub state: Drive,
}

// The refusals that the calls give which are no packets. (Numbers, as the definition gives them and C reads them.)
pub const UNKNOWN_STATE: u8 = 2;

pub const LOCKED: u8 = 5;

pub const CANNOT_LAY: u8 = 6;

pub const CANNOT_LIFT: u8 = 7;

impl Drive {
    // Refusal 2 does not meet the state: the sense is one of the thirteen, the play status one of the four, the position not past the end, the
    // end not over the last address, the recovery byte one of the twenty, the event not over 3.
    pub fn is_known_state(self) -> bool
        ensures { result ≡ is_known_state self }
    {
        is_known(self.unit.sense)
            && self.deck.play.is_play()
            && is_setting(self.deck.page.recovery)
            && is_event(self.deck.event)
    }

    // The state after the tray moved.
    pub fn shift(self, s: Shifted) -> Drive
        ensures { result ≡ shift self s }
    {
        Drive {
            unit: self.unit.attend(s.loading),
            deck: s.deck,
        }
    }

    // Power-on by default: a loaded drive greets with both attentions, any other with the power attention alone.
    pub fn power_on(self) -> Drive
        ensures { result ≡ power_on self }
    {
        self.power_on_with(self.deck.is_loaded())
    }

    // The second form of power-on: the power attention alone, also with a loaded disc.
    pub fn power_on_without_change(self) -> Drive
        ensures { result ≡ power_on_without_change self }
    {
        self.power_on_with(false)
    }

    // What both forms do: tray and disc kept, lock off, nothing played, the page's default values, no event, sense 00/00/00, power attention
    // pending; they differ in `change` alone.
    fn power_on_with(self, change: bool) -> Drive
        ensures { result ≡ power_on_with self change }
    {
        Drive {
            unit: self.unit.powered_on(change),
            deck: self.deck.restarted(),
        }
    }

    // An open tray closes; a closed one opens, unless locked: that press is refused, and changes the event alone.
    pub fn button(self) -> Moved
        ensures { result ≡ button self }
    {
        if !self.is_known_state() {
            return refuse(UNKNOWN_STATE, self);
        }
        if self.deck.tray_open {
            return moves(self.shift(self.deck.closing()));
        }
        if self.deck.lock {
            return refuse(LOCKED, self.with_deck(self.deck.with_event(PRESSED)));
        }
        moves(self.shift(self.deck.opening()))
    }

    pub fn lay(self) -> Moved
        ensures { result ≡ lay self }
    {
        if !self.is_known_state() {
            return refuse(UNKNOWN_STATE, self);
        }
        if !self.deck.tray_open || self.deck.disc_in {
            return refuse(CANNOT_LAY, self);
        }
        moves(self.with_deck(self.deck.with_disc(true)))
    }

    pub fn lift(self) -> Moved
        ensures { result ≡ lift self }
    {
        if !self.is_known_state() {
            return refuse(UNKNOWN_STATE, self);
        }
        if !self.deck.tray_open || !self.deck.disc_in {
            return refuse(CANNOT_LIFT, self);
        }
        moves(self.with_deck(self.deck.with_disc(false)))
    }

    // A playing position moves on by k blocks.
    pub fn move_on(self, k: usize) -> Moved
        ensures { result ≡ move_on k self }
    {
        if !self.is_known_state() {
            return refuse(UNKNOWN_STATE, self);
        }
        moves(self.with_deck(self.deck.with_play(self.deck.play.moved_on(k))))
    }

    // The state with that deck; the attention unit stays.
    fn with_deck(self, deck: Deck) -> Drive
        ensures { result ≡ with_deck self deck }
    {
        Drive { deck, ..self }
    }
}

fn moves(state: Drive) -> Moved
    ensures { result ≡ moves state }
{
    Moved { number: 0, state }
}

fn refuse(number: u8, state: Drive) -> Moved
    ensures { result ≡ refuse number state }
{
    Moved { number, state }
}
