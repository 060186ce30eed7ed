// An entry of a cue sheet, read once into a value.
ghost use Rattle.std.specs.Prelude.{◌≡◌, ◌+◌, ◌*◌, ◌≤◌, length};
ghost use Rattle.cue.specs.Sheet.{swapped, entry_at};

// The bytes of an entry.
pub const ENTRY: usize = 8;

// The index of an entry at which a track, or the lead-out, begins.
pub const START: u8 = 1;

// A track, or under number AAh the lead-out: ADR and control as a table has them, and the address.
#[derive(Clone, Copy)]
pub struct Track {
    pub flags: u8,
    pub number: u8,
    pub minute: u8,
    pub second: u8,
    pub frame: u8,
}

// An entry: its index, and what begins there.
#[derive(Clone, Copy)]
pub struct Entry {
    pub index: u8,
    pub track: Track,
}

// The nibbles swapped: a sheet has the control high, a table the ADR.
fn swapped(b: u8) -> u8
    ensures { result ≡ swapped b }
{
    b % 16 * 16 + b / 16 % 16
}

// Entry i. Its data form and SCMS are not looked at.
pub(crate) fn entry_at(s: &[u8], i: usize) -> Entry
    requires { 8 * i + 8 ≤ length s.now }
    ensures { result ≡ entry_at s.now i }
{
    let at = ENTRY * i;
    let track = Track {
        flags: swapped(s[at]),
        number: s[at + 1],
        minute: s[at + 5],
        second: s[at + 6],
        frame: s[at + 7],
    };
    Entry {
        index: s[at + 2],
        track,
    }
}
