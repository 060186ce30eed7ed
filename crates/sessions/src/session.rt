// A session, read as the part of the table that begins at its A0 descriptor.
ghost use Rattle.std.specs.Prelude.{◌≡◌, ◌+◌, ◌*◌, ◌≤◌, ◌<◌, length, drop};
ghost use Rattle.ground.specs.Tests.{every};
ghost use Rattle.table.specs.Layout.{row, point_at};
ghost use Rattle.table.specs.Row.{row_at, names};
ghost use Rattle.sessions.specs.Session.{tracks, one, size, listed, numbered, read_session, starts};

use ground::number::wide;
use table::layout::{A0, A1, A2, B0, C0, PMIN, POINT, ROW, byte_at};

// What reading a session finds: its first and last track and how many bytes its descriptors take.
#[derive(Clone, Copy)]
pub struct Session {
    pub first: u8,
    pub last: u8,
    pub bytes: usize,
}

// Descriptor j is of session k and has POINT p.
fn named(d: &[u8], k: usize, j: usize, p: usize) -> bool
    requires { row * j + row ≤ length d.now }
    ensures { result ≡ names (row_at d.now j) k p }
{
    let at = ROW * j;
    wide(d[at]) == k && wide(d[at + POINT]) == p
}

// The n descriptors after the third are the tracks from number f on. (A loop, as in `numbered`: `all` over a range costs rule 4 a fifth more.)
fn lists_tracks(d: &[u8], k: usize, f: usize, n: usize) -> bool
    requires { (row * (3 + n) ≤ length d.now) × (f ≤ 256) × (n ≤ 256) }
    ensures { result ≡ every n (λ i. names (row_at d.now (3 + i)) k (f + i)) }
{
    for i in 0..n {
        if !named(d, k, 3 + i, f + i) {
            return false;
        }
    }
    true
}

// The descriptors of session k name A0, A1, A2 and then the n tracks from number f on.
fn listed(d: &[u8], k: usize, f: usize, n: usize) -> bool
    requires { (row * (3 + n) ≤ length d.now) × (f ≤ 256) × (n ≤ 256) }
    ensures { result ≡ listed d.now k f n }
{
    named(d, k, 0, wide(A0))
        && named(d, k, 1, wide(A1))
        && named(d, k, 2, wide(A2))
        && lists_tracks(d, k, f, n)
}

// The m descriptors from j on are of session k.
fn numbered(d: &[u8], k: usize, j: usize, m: usize) -> bool
    requires { row * (j + m) ≤ length d.now }
    ensures { result ≡ numbered d.now k j m }
{
    for i in 0..m {
        if wide(d[ROW * (j + i)]) != k {
            return false;
        }
    }
    true
}

// How many tracks the session lists that begins at `at`, of any bytes.
fn tracks_at(d: &[u8], at: usize) -> usize
    requires { at < 1000000 }
    ensures same { result ≡ tracks (drop at d.now) }
    ensures most { result ≤ 256 }
{
    let f = byte_at(d, at + PMIN);
    let l = byte_at(d, at + ROW + PMIN);
    (l + 1).saturating_sub(f)
}

// How many descriptors with POINT p stand at byte i: one or none.
fn one_at(d: &[u8], i: usize, p: u8) -> usize
    requires { i < 2000000 }
    ensures same { result ≡ one (point_at (drop i d.now) 0) p }
    ensures most { result ≤ 1 }
{
    usize::from(byte_at(d, i + POINT) == wide(p))
}

// How many bytes the descriptors take of the session that begins at `at`, of any bytes.
fn size_at(d: &[u8], at: usize) -> usize
    requires { at < 1000000 }
    ensures same { result ≡ size (drop at d.now) }
    ensures most { result ≤ 2871 }
{
    let n = 3 + tracks_at(d, at);
    let b = one_at(d, at + ROW * n, B0);
    let c = one_at(d, at + ROW * (n + b), C0);
    ROW * (n + b + c)
}

// How many bytes the descriptors take of the session that d begins with.
pub fn session_bytes(d: &[u8]) -> usize
    ensures { result ≡ size d.now }
{
    size_at(d, 0)
}

// The session k that d begins with, if it does.
pub fn read_session(d: &[u8], k: usize) -> Option<Session>
    ensures { result ≡ read_session k d.now }
{
    if d.len() < 3 * ROW {
        return None;
    }
    let first = d[PMIN];
    let last = d[ROW + PMIN];
    // asked apart, so that the compiler sees below that there is a track
    if first < 1 {
        return None;
    }
    if last < first || 99 < last {
        return None;
    }
    let bytes = session_bytes(d);
    if d.len() < bytes {
        return None;
    }
    let f = wide(first);
    let n = wide(last) + 1 - f;
    if listed(d, k, f, n) && numbered(d, k, 3 + n, bytes / ROW - (3 + n)) {
        return Some(Session { first, last, bytes });
    }
    None
}

// Where the session after n others begins, of any bytes.
pub fn starts_after(d: &[u8], n: u8) -> usize
    ensures { result ≡ starts d.now n }
{
    let mut at = 0;
    for _ in 0..n {
        at += size_at(d, at);
    }
    at
}
