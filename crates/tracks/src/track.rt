// Tracks: each descriptor is read once, and what is asked for is told from that.
ghost use Rattle.std.specs.Prelude.{◌≡◌, ◌+◌, ◌*◌, ◌≤◌, length};
ghost use Rattle.table.specs.Layout.{row, rows, descriptors};
ghost use Rattle.tracks.specs.Track.{is_data, flagged, is_mode, covers, wanted, track_with, next_out, next_found, found, track_of, track_numbered, no_track};

use address::address_of;
use ground::number::wide;
use table::layout::{A2, FLAGS, HEADER, PFRAME, PMIN, POINT, PSEC, ROW, is_track};

// A track: its number, ADR/control, start, and its session's lead-out. Number 0 is no track, and no `Option`: READ SUB-CHANNEL shows its
// zeros, and the theorems over `track_of` and `track_numbered` say so.
#[derive(Clone, Copy, Default)]
pub struct Track {
    pub number: u8,
    pub flags: u8,
    pub start: usize,
    pub out: usize,
}

// The mode of a track.
#[derive(Clone, Copy)]
pub enum Mode {
    Data,
    Audio,
}

// What a track is asked for by. (Two kinds, each with its number.)
#[derive(Clone, Copy)]
pub enum Ask {
    Block(usize),
    Number(u8),
}

fn no_track() -> Track
    ensures { result ≡ no_track }
{
    Track::default()
}

// The control's data bit.
pub fn is_data(flags: u8) -> bool
    ensures { result ≡ is_data flags }
{
    wide(flags) / 4 % 2 == 1
}

// ADR/control of that mode.
pub(crate) fn is_flagged(mode: Mode, flags: u8) -> bool
    ensures { result ≡ flagged mode flags }
{
    match mode {
        Mode::Data => is_data(flags),
        Mode::Audio => !is_data(flags),
    }
}

// A track of that mode; no track is of neither.
pub(crate) fn is_mode(mode: Mode, u: Track) -> bool
    ensures { result ≡ is_mode mode u }
{
    is_track(wide(u.number)) && is_flagged(mode, u.flags)
}

// Descriptor j as a track, where `out` is the lead-out of its session.
pub(crate) fn track_at(d: &[u8], j: usize, out: usize) -> Track
    requires { row * j + row ≤ length d.now }
    ensures { result ≡ track_with d.now j out }
{
    let at = ROW * j;
    Track {
        number: d[at + POINT],
        flags: d[at + FLAGS],
        start: address_of(d[at + PMIN], d[at + PSEC], d[at + PFRAME]),
        out,
    }
}

// Descriptor c is a track that is asked for, where u is what was found so far. (Not `&&` before a `match`: no plainer.)
fn wanted(ask: Ask, c: Track, u: Track) -> bool
    ensures { result ≡ wanted ask c u }
{
    if is_track(wide(c.number)) {
        return match ask {
            Ask::Block(b) => covers(c.start, b, u.start),
            Ask::Number(n) => c.number == n,
        };
    }
    false
}

// A start not above the block, and not below the greatest so far.
#[tactic(auto, using(ground::specs::TestValues::test_values), unfolding(crate::specs::Track::covers))]
fn covers(start: usize, block: usize, greatest: usize) -> bool
    ensures { result ≡ covers start block greatest }
{
    start <= block && greatest <= start
}

// What is found once descriptor c has been read too.
fn next_found(ask: Ask, c: Track, u: Track) -> Track
    ensures { result ≡ next_found ask c u }
{
    if wanted(ask, c, u) {
        return c;
    }
    u
}

// The lead-out for the descriptor after c.
fn next_out(c: Track) -> usize
    ensures { result ≡ next_out c }
{
    if c.number == A2 {
        return c.start;
    }
    c.out
}

// The track that is asked for, among all descriptors.
fn found(ask: Ask, d: &[u8]) -> Track
    ensures { result ≡ found ask d.now (rows d.now) }
{
    let mut out = 0;
    let mut u = no_track();
    for j in 0..d.len() / ROW {
        let c = track_at(d, j, out);
        u = next_found(ask, c, u);
        out = next_out(c);
    }
    u
}

// The descriptors of a table; none where it has no header.
pub(crate) fn descriptors(t: &[u8]) -> &[u8]
    ensures { result.now ≡ descriptors t.now }
{
    if t.len() < HEADER {
        return &t[..0];
    }
    &t[HEADER..]
}

// The track to which a block belongs, or no track.
pub fn track_of(t: &[u8], block: usize) -> Track
    ensures { result ≡ track_of (descriptors t.now) block }
{
    let u = found(Ask::Block(block), descriptors(t));
    if block < u.out {
        return u;
    }
    no_track()
}

// The track of that number, or no track.
pub fn track_numbered(t: &[u8], number: u8) -> Track
    ensures { result ≡ track_numbered (descriptors t.now) number }
{
    found(Ask::Number(number), descriptors(t))
}
