// What a fit table adds: its blocks by their tracks, told by the tracks' lengths and not block by block.
ghost use Rattle.std.specs.Prelude.{◌≡◌, ◌+◌, ◌*◌, ◌≤◌, length, IfSome};
ghost use Rattle.table.specs.Layout.{row, flags_at};
ghost use Rattle.table.specs.Row.{address_at};
ghost use Rattle.sessions.specs.Session.{first, last, tracks};
ghost use Rattle.disc.specs.Rules.{track_start};
ghost use Rattle.disc.specs.RulesLaws.{Fit};
ghost use Rattle.disc.specs.FitLaws.{Rises};
ghost use Rattle.tracks.specs.Track.{is_data};
ghost use Rattle.tracks.specs.declared.track.Mode.TheVariants.{Data};
ghost use Rattle.shelf.specs.Count.{sum_below};
ghost use Rattle.shelf.specs.Lengths.{track_blocks, mode_blocks, idle, run_past, blocks_to};
ghost use Rattle.shelf.specs.ContentLaws.{held_by};

use ground::number::wide;
use sessions::session::session_bytes;
use table::layout::{FLAGS, HEADER, PMIN, ROW};
use table::row::{row_of, start_of};
use tracks::track::is_data;

// Tracks passed: the blocks of the runs of data tracks that have ended, and where one began that has not, if one did.
#[derive(Clone, Copy, Default)]
pub struct Run {
    pub blocks: usize,
    pub from: Option<usize>,
}

// A fit table's blocks of data tracks, and of no track.
#[derive(Clone, Copy)]
pub struct Held {
    pub of_data: usize,
    pub of_none: usize,
}

// No track passed.
fn idle() -> Run
    ensures { result ≡ idle }
{
    Run::default()
}

// The address that descriptor j holds.
fn address_at(s: &[u8], j: usize) -> usize
    requires { row * j + row ≤ length s.now }
    ensures { result ≡ address_at s.now j }
{
    let at = ROW * j;
    start_of(row_of(&s[at..at + ROW]))
}

// The session's track after i others is passed. Its address is looked at only where a run of data tracks begins or ends.
fn pass(s: &[u8], i: usize, r: Run) -> Run
    requires { (row * (4 + i) ≤ length s.now) × IfSome r.from (λ a. a ≤ track_start s.now i) × (blocks_to (track_start s.now i) r ≤ track_start s.now i) }
    ensures { result ≡ run_past (is_data (flags_at s.now (3 + i))) (track_start s.now i) r }
{
    let j = 3 + i;
    match (is_data(s[ROW * j + FLAGS]), r.from) {
        (true, None) => Run {
            from: Some(address_at(s, j)),
            ..r
        },
        (false, Some(from)) => Run {
            blocks: r.blocks + (address_at(s, j) - from),
            from: None,
        },
        _ => r,
    }
}

// The blocks of the data tracks among the n tracks of the session that s begins with.
fn data_in(s: &[u8], n: usize) -> usize
    requires { (row * (3 + n) ≤ length s.now) × Rises s.now n }
    ensures { result ≡ sum_below n (track_blocks Data s.now n) }
{
    let mut r = idle();
    for i in 0..n {
        r = pass(s, i, r);
    }
    match r.from {
        Some(from) => r.blocks + (address_at(s, 2) - from),
        None => r.blocks,
    }
}

// The same of all its tracks.
fn data_of(s: &[u8]) -> usize
    requires { (first s.now ≤ last s.now) × (row * (3 + tracks s.now) ≤ length s.now) × Rises s.now (tracks s.now) }
    ensures { result ≡ mode_blocks Data s.now }
{
    data_in(s, wide(s[ROW + PMIN]) + 1 - wide(s[PMIN]))
}

// The blocks of a fit table's data tracks, and those of no track: before its first track, and between its sessions.
pub(crate) fn held_by(t: &[u8]) -> Held
    requires { Fit t.now }
    ensures { result ≡ held_by t.now }
{
    let d = &t[HEADER..];
    let mut at = 0;
    let mut out = 0;
    let mut of_data = 0;
    let mut of_none = 0;
    for _ in 0..t[3] {
        let s = &d[at..];
        of_none += address_at(s, 3) - out;
        of_data += data_of(s);
        out = address_at(s, 2);
        at += session_bytes(s);
    }
    Held { of_data, of_none }
}
