// Rules 1 to 7, the later ones from where the walk stopped, and the first that is broken.
ghost use Rattle.std.specs.Prelude.{◌≡◌, true, ◌+◌, ◌-◌, ◌*◌, ◌%◌, ◌≤◌, length};
ghost use Rattle.ground.specs.Tests.{◌and◌};
ghost use Rattle.table.specs.Layout.{row};
ghost use Rattle.sessions.specs.Session.{first, last, tracks, in_order};
ghost use Rattle.disc.specs.Rules.{rule1, rule2, each_row, track_start, rises, begins_after, rule7, first_broken, late_rules, row_rules};
ghost use Rattle.disc.specs.RulesLaws.{Risen};
ghost use Rattle.disc.specs.Walk.{next_of};
ghost use Rattle.disc.specs.WalkSteps.{Reached, Trod};

use crate::rows::{row_at, row_from};
use ground::number::{wide, word16};
use sessions::session::{read_session, session_bytes};
use table::layout::{BOUND, HEADER, PMIN, ROW};
use table::row::{row_test, start_of};

// Rule 1: the length, and the data length that says it.
#[tactic(auto, using(ground::specs::TestValues::test_values), unfolding(crate::specs::Rules::rule1))]
pub(crate) fn rule1(t: &[u8]) -> bool
    ensures { result ≡ rule1 t.now }
{
    let n = t.len();
    HEADER <= n && n <= BOUND && (n - HEADER) % ROW == 0 && word16(t[0], t[1]) == n - 2
}

// Rule 2: the first session is 1 and the last 1 to 99.
#[tactic(auto, using(ground::specs::TestValues::test_values), unfolding(crate::specs::Rules::rule2))]
pub(crate) fn rule2(t: &[u8]) -> bool
    requires { 4 ≤ length t.now }
    ensures { result ≡ rule2 t.now }
{
    t[2] == 1 && 1 <= t[3] && t[3] <= 99
}

// Rule n, one of 3, 5 and 6: each descriptor passes its test. (A `while`, by bytes: a `for` by descriptor number costs one instruction a descriptor
// more, which took a table that rule 5 or 6 breaks at its start over 1.2 of C.)
fn each_row(n: usize, d: &[u8]) -> bool
    requires { length d.now % row ≡ 0 }
    ensures { result ≡ each_row n d.now }
{
    let mut at = 0;
    while at < d.len() {
        if !row_test(n, row_from(d, at)) {
            return false;
        }
        at += ROW;
    }
    true
}

// Rule 4, of n sessions, of which `passed` stand in their places: the next begins at `from` and with track `track`.
fn rule4(n: u8, d: &[u8], passed: u8, from: usize, track: usize) -> bool
    requires { Reached n d.now passed from track }
    ensures { result ≡ in_order n d.now }
{
    let mut at = from;
    let mut next = track;
    for k in passed..n {
        let Some(s) = read_session(&d[at..], wide(k) + 1) else {
            return false;
        };
        if wide(s.first) != next {
            return false;
        }
        at += s.bytes;
        next = wide(s.last) + 1;
    }
    at == d.len()
}

// The starts of the n tracks of the session that s begins with rise up to its lead-out.
fn rises(s: &[u8], n: usize) -> bool
    requires { (1 ≤ n) × (row * (3 + n) ≤ length s.now) }
    ensures { result ≡ rises s.now n }
{
    let mut start = start_of(row_at(s, 3));
    for i in 0..n - 1 {
        let next = start_of(row_at(s, 3 + (i + 1)));
        if next <= start {
            return false;
        }
        start = next;
    }
    start < start_of(row_at(s, 2))
}

// The starts of the session that s begins with rise up to its lead-out, and begin after the lead-out before.
fn session_rises(s: &[u8], k: usize, out: usize) -> bool
    requires { (first s.now ≤ last s.now) × (row * (3 + tracks s.now) ≤ length s.now) }
    ensures { result ≡ rises s.now (tracks s.now) and begins_after k out (track_start s.now 0) }
{
    let n = wide(s[ROW + PMIN]) + 1 - wide(s[PMIN]);
    rises(s, n) && begins_after(k, out, start_of(row_at(s, 3)))
}

// Rule 7, of n sessions, of which `passed` keep it: the next begins at `from`, and the lead-out before it is `before`.
fn rule7(n: u8, d: &[u8], passed: u8, from: usize, before: usize) -> bool
    requires { (in_order n d.now ≡ true) × Risen n d.now passed from before }
    ensures { result ≡ rule7 n d.now }
{
    let mut at = from;
    let mut out = before;
    for k in passed..n {
        let s = &d[at..];
        if !session_rises(s, wide(k), out) {
            return false;
        }
        out = start_of(row_at(s, 2));
        at += session_bytes(s);
    }
    true
}

// The first track of session k starts after the lead-out of the one before.
#[tactic(auto, using(ground::specs::TestValues::test_values), unfolding(crate::specs::Rules::begins_after))]
fn begins_after(k: usize, out: usize, start: usize) -> bool
    ensures { result ≡ begins_after k out start }
{
    k == 0 || out < start
}

// The first broken rule of 3 to 7, of n sessions, of which k are kept: the next begins at `at`, with track `next`, at frame `floor` or later.
// Each rule is asked of what stands from there on. (0 for none, as the definition `first_broken` has it; `disc::walk` makes an Err of it.)
pub(crate) fn fault_from(d: &[u8], n: u8, k: u8, at: usize, next: usize, floor: usize) -> u8
    requires { (length d.now % row ≡ 0) × Trod n d.now k at next floor }
    ensures { result ≡ first_broken 3 (row_rules n d.now) }
{
    if !each_row(3, &d[at..]) {
        return 3;
    }
    if !rule4(n, d, k, at, next) {
        return 4;
    }
    late_fault(d, n, k, at, floor)
}

// The first broken rule of 5 to 7, where the sessions stand in order.
fn late_fault(d: &[u8], n: u8, k: u8, at: usize, floor: usize) -> u8
    requires { (length d.now % row ≡ 0) × (in_order n d.now ≡ true) × Trod n d.now k at (next_of d.now k) floor }
    ensures { result ≡ first_broken 5 (late_rules n d.now) }
{
    let rest = &d[at..];
    if !each_row(5, rest) {
        return 5;
    }
    if !each_row(6, rest) {
        return 6;
    }
    // The lead-out before, as a block address: its next frame is `floor`.
    if !rule7(n, d, k, at, floor.saturating_sub(151)) {
        return 7;
    }
    0
}
