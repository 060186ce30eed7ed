// The play record: its status, position and end.
#![tactic(auto)]

ghost use Rattle.std.specs.Prelude.{◌≡◌};
ghost use Rattle.play.specs.Play.{no_play, with_status, is_status, is_play, moved_on};

use address::LAST;

#[repr(C)]
#[derive(Clone, Copy)]
pub struct Play {
    pub status: u8,
    pub position: usize,
    pub end: usize,
}

// The four statuses: bytes, since C reads the record (C interface).
pub const PLAYING: u8 = 0x11;

pub const PAUSED: u8 = 0x12;

pub const COMPLETED: u8 = 0x13;

pub const NONE: u8 = 0x15;

// Nothing is played: the record after power-on, loading and opening.
pub fn no_play() -> Play
    ensures { result ≡ no_play }
{
    Play {
        status: NONE,
        position: 0,
        end: 0,
    }
}

// The status is one of the four.
#[tactic(auto, using(crate::specs::PlayLaws::is_status_tests))]
fn is_status(status: u8) -> bool
    ensures { result ≡ is_status status }
{
    matches!(status, PLAYING | PAUSED | COMPLETED | NONE)
}

impl Play {
    // A status of the four, a position that is not past its end, an end that is a block's address.
    pub fn is_play(self) -> bool
        ensures { result ≡ is_play self }
    {
        is_status(self.status) && self.position <= self.end && self.end <= LAST
    }

    // Another status; position and end stay.
    pub fn with_status(self, status: u8) -> Play
        ensures { result ≡ with_status self status }
    {
        Play { status, ..self }
    }

    // A playing position moves on by k blocks, at most to the end, where it is completed.
    pub fn moved_on(self, k: usize) -> Play
        ensures { result ≡ moved_on k self }
    {
        if self.status == PLAYING {
            let position = self.position.saturating_add(k).min(self.end);
            let status = if position == self.end {
                COMPLETED
            } else {
                PLAYING
            };
            return Play {
                status,
                position,
                ..self
            };
        }
        self
    }
}
