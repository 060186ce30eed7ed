// The table's layout: the bound, where each field of an 11-byte descriptor stands, and the POINTs.
ghost use Rattle.std.specs.Prelude.{◌≡◌, get_or};
ghost use Rattle.ground.specs.Number.{Byte};
ghost use Rattle.table.specs.Layout.{is_track, is_extra};

use ground::number::wide;

// The most bytes of a table and of an answer, and the least of the response memory.
pub const BOUND: usize = 6538;

pub const HEADER: usize = 4;

pub const ROW: usize = 11;

// Where the fields stand in a descriptor.
pub const FLAGS: usize = 1;

pub const POINT: usize = 3;

pub const PMIN: usize = 8;

pub const PSEC: usize = 9;

pub const PFRAME: usize = 10;

// The POINTs that are no tracks. (Numbers, as the definition prints them and a table holds them.)
pub const A0: u8 = 0xA0;

pub const A1: u8 = 0xA1;

pub const A2: u8 = 0xA2;

pub const B0: u8 = 0xB0;

pub const C0: u8 = 0xC0;

// POINT p is a track's number.
pub fn is_track(p: usize) -> bool
    ensures { result ≡ is_track p }
{
    1 <= p && p <= 99
}

// POINT p is B0h or C0h, which may stand after a session's tracks.
pub fn is_extra(p: u8) -> bool
    ensures { result ≡ is_extra p }
{
    p == B0 || p == C0
}

// Byte i of d, and 0 past its end.
pub fn byte_at(d: &[u8], i: usize) -> usize
    ensures { Byte (get_or d.now i 0) result }
{
    d.get(i).map_or(0, |b| wide(*b))
}
