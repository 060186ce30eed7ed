// What commands need of a fit table, read off it in one walk; of any other table the first broken rule.
ghost use Rattle.std.specs.Prelude.{◌≡◌, ◌-◌, ◌*◌, ◌%◌, ◌≤◌, length};
ghost use Rattle.table.specs.Layout.{row};
ghost use Rattle.sessions.specs.Session.{session};
ghost use Rattle.disc.specs.Rules.{fault};
ghost use Rattle.disc.specs.Disc.{disc_from, reading};
ghost use Rattle.disc.specs.Walk.{rows_reading};

use crate::rows::row_at;
use crate::rules::{fault_from, rule1, rule2};
use crate::walk::{FLOOR, session_end};
use ground::number::wide;
use table::layout::{HEADER, PMIN, ROW, byte_at};
use table::row::{frames_of, start_of};

// The first and the last track, S, the last lead-out and its ADR/control, and the last session's first track: number, ADR/control
// and start.
#[derive(Clone, Copy, Default)]
pub struct Disc {
    pub first: u8,
    pub last: u8,
    pub sessions: u8,
    pub lead_out: usize,
    pub lead_flags: u8,
    pub last_first: u8,
    pub last_first_flags: u8,
    pub last_first_start: usize,
}

// A table that is not fit, by the first broken rule: one of 1 to 7.
#[derive(Clone, Copy, Debug, PartialEq, Eq)]
pub struct Unfit {
    pub rule: u8,
}

// A lent table is read: a fit one's disc, or the first broken rule. Rules 1 and 2, and then the walk.
pub fn read(t: &[u8]) -> Result<Disc, Unfit>
    ensures { result ≡ reading t.now }
{
    if !rule1(t) {
        return Err(Unfit { rule: 1 });
    }
    if !rule2(t) {
        return Err(Unfit { rule: 2 });
    }
    walk(&t[HEADER..], t[3])
}

// The first broken rule, or 0 for a fit table: the definition `fault`, of which the theorems speak; `read` gives the same as a Result.
pub fn fault(t: &[u8]) -> u8
    ensures { result ≡ fault t.now }
{
    match read(t) {
        Ok(_) => 0,
        Err(unfit) => unfit.rule,
    }
}

// One walk over the descriptors of n sessions passes each session that is kept. From the first that is not on the rules are asked one by one.
fn walk(d: &[u8], n: u8) -> Result<Disc, Unfit>
    requires { (length d.now % row ≡ 0) × (1 ≤ n) × (n ≤ 99) }
    ensures { result ≡ rows_reading n d.now }
{
    let mut s = d;
    let mut last = d;
    let mut next = byte_at(d, PMIN);
    let mut floor = FLOOR;
    for k in 0..n {
        let Some(end) = session_end(s, k + 1, next, floor) else {
            let rule = fault_from(d, n, k, d.len() - s.len(), next, floor);
            return Err(Unfit { rule });
        };
        next = wide(s[ROW + PMIN]) + 1;
        floor = frames_of(row_at(s, 2)) + 1;
        last = s;
        s = &s[end..];
    }
    if s.is_empty() {
        return Ok(disc_of(d, last, n));
    }
    let rule = fault_from(d, n, n, d.len() - s.len(), next, floor);
    Err(Unfit { rule })
}

// The disc of n sessions, of which s is the last.
fn disc_of(d: &[u8], s: &[u8], n: u8) -> Disc
    requires { (s.now ≡ session d.now (n - 1)) × (4 * row ≤ length s.now) × (4 * row ≤ length d.now) }
    ensures { result ≡ disc_from n d.now }
{
    let lead = row_at(s, 2);
    let track = row_at(s, 3);
    Disc {
        first: d[PMIN],
        last: s[ROW + PMIN],
        sessions: n,
        lead_out: start_of(lead),
        lead_flags: lead.flags,
        last_first: track.point,
        last_first_flags: track.flags,
        last_first_start: start_of(track),
    }
}
