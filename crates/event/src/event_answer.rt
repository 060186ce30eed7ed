// The bytes of GET EVENT STATUS NOTIFICATION's answer, and what is left waiting after it.
ghost use Rattle.std.specs.Prelude.{◌≡◌, min, length};
ghost use Rattle.event.specs.EventAnswer.{media_status, event_of, status_of, class_bytes, none_bytes, event_bytes, cleared};

use crate::event_class::{MEDIA, SUPPORTED};
use deck::{Deck, NO_EVENT};

// How many bytes of a media answer clear the event: the fifth shows it.
const CLEARING: usize = 5;

// The media status: a disc in is bit 1, an open tray bit 0.
fn media_status(m: Deck) -> u8
    ensures { result ≡ media_status m }
{
    if m.disc_in {
        if m.tray_open {
            return 0x03;
        }
        return 0x02;
    }
    if m.tray_open {
        return 0x01;
    }
    0x00
}

// The event that the class reports. (0 is a byte of the answer, and no value that is missing; so of the status.)
fn event_of(class: u8, m: Deck) -> u8
    ensures { result ≡ event_of class m }
{
    if class != MEDIA {
        return 0;
    }
    m.event
}

// The status that the class reports.
fn status_of(class: u8, m: Deck) -> u8
    ensures { result ≡ status_of class m }
{
    if class != MEDIA {
        return 0;
    }
    media_status(m)
}

// The answer of a class.
pub fn class_bytes(class: u8, m: Deck) -> [u8; 8]
    ensures { result ≡ class_bytes class m }
{
    [
        0x00,
        0x06,
        class,
        SUPPORTED,
        event_of(class, m),
        status_of(class, m),
        0,
        0,
    ]
}

// The answer where no class asked for is supported.
pub fn none_bytes() -> [u8; 4]
    ensures { result ≡ none_bytes }
{
    [0x00, 0x02, 0x80, SUPPORTED]
}

// The deck after the answer, `limit` bytes being asked for: enough of a media answer clears the event.
pub fn cleared(class: u8, limit: usize, m: Deck) -> Deck
    ensures { result ≡ cleared class (min limit (length (event_bytes class m))) m }
{
    if class == MEDIA {
        if limit < CLEARING {
            return m;
        }
        return m.with_event(NO_EVENT);
    }
    m
}
