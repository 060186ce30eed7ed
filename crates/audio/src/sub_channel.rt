// READ SUB-CHANNEL: the play record, and where its position stands on the disc that is in.
ghost use Rattle.std.specs.Prelude.{◌≡◌};
ghost use Rattle.audio.specs.SubChannel.{sub_ask, sub_bad, index_of, relative, shown_relative, position_bytes, status_bytes, reported};

use address::shown_address;
use command::field::bit;
use ground::number::{bytes32, wide};
use play::{COMPLETED, NONE, Play};
use table::layout::is_track;
use tracks::track::Track;

// What the packet asks for.
#[derive(Clone, Copy)]
pub struct SubAsk {
    pub msf: bool,
    pub sub_q: bool,
    pub format: u8,
}

// The one format that there is: the current position.
const POSITION: u8 = 0x01;

// The packet's bytes 1 to 3.
pub fn sub_ask(b1: u8, b2: u8, b3: u8) -> SubAsk
    ensures { result ≡ sub_ask b1 b2 b3 }
{
    SubAsk {
        msf: bit::<1>(b1),
        sub_q: bit::<6>(b2),
        format: b3,
    }
}

// Another format, which only SubQ looks at.
pub fn sub_bad(ask: SubAsk) -> bool
    ensures { result ≡ sub_bad ask }
{
    ask.sub_q && ask.format != POSITION
}

// The index: 1 in a track.
fn index_of(u: Track) -> u8
    ensures { result ≡ index_of u }
{
    if is_track(wide(u.number)) {
        return 1;
    }
    0
}

// How far block b lies behind its track's start; 0 without a track.
fn relative(u: Track, b: usize) -> usize
    ensures { result ≡ relative u b }
{
    if is_track(wide(u.number)) {
        return b.saturating_sub(u.start);
    }
    0
}

// A relative address: four bytes, or 0 M S F, which begins at 00:00:00.
fn shown_relative(msf: bool, n: usize) -> [u8; 4]
    ensures { result ≡ shown_relative msf n }
{
    if msf {
        return [
            0,
            (n / 75 / 60 % 256) as u8,
            (n / 75 % 60) as u8,
            (n % 75) as u8,
        ];
    }
    bytes32(n)
}

// With SubQ: the status and the position, u its track.
pub fn position_bytes(msf: bool, u: Track, r: Play) -> [u8; 16]
    ensures { result ≡ position_bytes msf u r }
{
    let a = shown_address(msf, r.position);
    let b = shown_relative(msf, relative(u, r.position));
    [
        0,
        r.status,
        0x00,
        0x0C,
        POSITION,
        u.flags,
        u.number,
        index_of(u),
        a[0],
        a[1],
        a[2],
        a[3],
        b[0],
        b[1],
        b[2],
        b[3],
    ]
}

// Without SubQ: the status alone.
pub fn status_bytes(r: Play) -> [u8; 4]
    ensures { result ≡ status_bytes r }
{
    [0, r.status, 0x00, 0x00]
}

// The record after the answer: a completed play was told.
pub fn reported(r: Play) -> Play
    ensures { result ≡ reported r }
{
    if r.status == COMPLETED {
        return r.with_status(NONE);
    }
    r
}
