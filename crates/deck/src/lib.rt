// The deck: tray, disc, lock, play record, mode page and media event, and what the tray's moving and power-on do to them.
#![tactic(auto)]

ghost use Rattle.std.specs.Prelude.{◌≡◌};
ghost use Rattle.deck.specs.Deck.{is_event, event_moved, opening, closed_play, closing, restarted, with_disc, with_lock, with_play, with_page, with_event, is_loaded};

use page::{Page, defaults};
use play::{Play, no_play};

// Tray open or closed; disc in or not; lock; the play record; the mode page; the media event.
#[repr(C)]
#[derive(Clone, Copy)]
pub struct Deck {
    pub tray_open: bool,
    pub disc_in: bool,
    pub lock: bool,
    pub play: Play,
    pub page: Page,
    pub event: u8,
}

// The deck after the tray moved, and whether that was a loading. (A fact of its own: it says nothing of the deck.)
#[derive(Clone, Copy)]
pub struct Shifted {
    pub deck: Deck,
    pub loading: bool,
}

// The media events: none, the button pressed on a locked closed tray, a loading, an opening with a disc. (Bytes, since C lends any deck: C
// interface.)
pub const NO_EVENT: u8 = 0;

pub const PRESSED: u8 = 1;

pub const LOADED: u8 = 2;

pub const OPENED: u8 = 3;

// The event is none or one of the three.
pub fn is_event(event: u8) -> bool
    ensures { result ≡ is_event event }
{
    event <= OPENED
}

impl Deck {
    // Tray closed with a disc in.
    pub fn is_loaded(self) -> bool
        ensures { result ≡ is_loaded self }
    {
        !self.tray_open && self.disc_in
    }

    // The event after the tray moved: without a disc it stays.
    fn event_moved(self, event: u8) -> u8
        ensures { result ≡ event_moved self event }
    {
        if !self.disc_in {
            return self.event;
        }
        event
    }

    // The tray opens, by button or packet: nothing is played, and with a disc in that is an event.
    pub fn opening(self) -> Shifted
        ensures { result ≡ opening self }
    {
        Shifted {
            deck: Deck {
                tray_open: true,
                play: no_play(),
                event: self.event_moved(OPENED),
                ..self
            },
            loading: false,
        }
    }

    // The play record after a closing: none after a loading.
    fn closed_play(self) -> Play
        ensures { result ≡ closed_play self }
    {
        if self.disc_in {
            return no_play();
        }
        self.play
    }

    // The tray closes, by button or packet: with a disc in that is a loading, and an event.
    pub fn closing(self) -> Shifted
        ensures { result ≡ closing self }
    {
        Shifted {
            deck: Deck {
                tray_open: false,
                play: self.closed_play(),
                event: self.event_moved(LOADED),
                ..self
            },
            loading: self.disc_in,
        }
    }

    // What power-on leaves: tray and disc kept, lock off, nothing played, the page's default values, no event.
    pub fn restarted(self) -> Deck
        ensures { result ≡ restarted self }
    {
        Deck {
            lock: false,
            play: no_play(),
            page: defaults(),
            event: NO_EVENT,
            ..self
        }
    }

    pub fn with_disc(self, disc_in: bool) -> Deck
        ensures { result ≡ with_disc self disc_in }
    {
        Deck { disc_in, ..self }
    }

    pub fn with_lock(self, lock: bool) -> Deck
        ensures { result ≡ with_lock self lock }
    {
        Deck { lock, ..self }
    }

    pub fn with_play(self, play: Play) -> Deck
        ensures { result ≡ with_play self play }
    {
        Deck { play, ..self }
    }

    pub fn with_page(self, page: Page) -> Deck
        ensures { result ≡ with_page self page }
    {
        Deck { page, ..self }
    }

    pub fn with_event(self, event: u8) -> Deck
        ensures { result ≡ with_event self event }
    {
        Deck { event, ..self }
    }
}
