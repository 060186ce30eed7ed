// One session of the walk that decides fitness: each descriptor is read into a value and tested for all that rules 3 to 7 ask of it as it is passed.
ghost use Rattle.std.specs.Prelude.{◌≡◌, ◌+◌, ◌-◌, ◌*◌, ◌%◌, ◌≤◌, length, IfSome};
ghost use Rattle.table.specs.Layout.{row};
ghost use Rattle.disc.specs.Walk.{heads_kept, tracks_end, extra_end, extras_end, session_end};

use crate::rows::{row_at, row_from};
use ground::number::wide;
use table::asked::{a0_kept, a1_kept, climbs, extra_kept, holds, kept};
use table::layout::{A2, B0, C0, PMIN, ROW};
use table::row::frames_of;

// 00:02:00, before which no track starts.
pub const FLOOR: usize = 150;

// All that is asked of A0, A1 and A2 of session k.
#[tactic(auto, using(ground::specs::TestValues::test_values), unfolding(crate::specs::Walk::heads_kept))]
fn heads_kept(d: &[u8], k: u8) -> bool
    requires { 3 * row ≤ length d.now }
    ensures { result ≡ heads_kept d.now k }
{
    a0_kept(row_at(d, 0), k) && a1_kept(row_at(d, 1), k) && kept(row_at(d, 2), k, A2)
}

// Where the tracks f to l end, the first of which starts at `floor` or later: nowhere if one of them or the lead-out after them is not kept.
fn tracks_end(d: &[u8], k: u8, f: u8, l: u8, floor: usize) -> Option<usize>
    requires { (length d.now % row ≡ 0) × (3 * row ≤ length d.now) × (1 ≤ k) × (f ≤ l) × (l ≤ 99) }
    ensures same { result ≡ tracks_end d.now k f (l + 1 - f) floor }
    ensures within { IfSome result (λ end. (end % row ≡ 0) × (end ≤ length d.now)) }
{
    let mut at = 3 * ROW;
    let mut low = floor;
    for p in f..=l {
        if d.len() <= at {
            return None;
        }
        let r = row_from(d, at);
        if !kept(r, k, p) || !climbs(r, low) {
            return None;
        }
        low = frames_of(r) + 1;
        at += ROW;
    }
    if holds(row_at(d, 2), low) {
        Some(at)
    } else {
        None
    }
}

// Where a descriptor of session k with POINT p ends that may stand at byte `at`: nowhere if it is not kept.
fn extra_end(d: &[u8], k: u8, at: usize, p: u8) -> Option<usize>
    requires { (length d.now % row ≡ 0) × (at % row ≡ 0) × (at ≤ length d.now) × (1 ≤ p) }
    ensures same { result ≡ extra_end d.now k at p }
    ensures within { IfSome result (λ end. (end % row ≡ 0) × (end ≤ length d.now)) }
{
    if d.len() <= at {
        return Some(at);
    }
    let r = row_from(d, at);
    if r.point != p {
        return Some(at);
    }
    if extra_kept(r, k) {
        Some(at + ROW)
    } else {
        None
    }
}

// Where a B0h and then a C0h of session k end that may stand at byte `at`: nowhere if one is not kept.
fn extras_end(d: &[u8], k: u8, at: usize) -> Option<usize>
    requires { (length d.now % row ≡ 0) × (at % row ≡ 0) × (at ≤ length d.now) }
    ensures { result ≡ extras_end d.now k at }
{
    if d.len() <= at {
        return Some(at);
    }
    let b = extra_end(d, k, at, B0)?;
    extra_end(d, k, b, C0)
}

// Where the session k ends that d begins with: nowhere if it is not kept, or does not begin with track `next`.
pub(crate) fn session_end(d: &[u8], k: u8, next: usize, floor: usize) -> Option<usize>
    requires { (length d.now % row ≡ 0) × (1 ≤ k) }
    ensures { result ≡ session_end k d.now next floor }
{
    if d.len() < 3 * ROW {
        return None;
    }
    let f = d[PMIN];
    let l = d[ROW + PMIN];
    if f < 1 || wide(f) != next || l < f || 99 < l || !heads_kept(d, k) {
        return None;
    }
    let end = tracks_end(d, k, f, l, floor)?;
    extras_end(d, k, end)
}
