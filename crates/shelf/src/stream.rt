// A stream of tables, cut apart.
ghost use Rattle.std.specs.Prelude.{◌≡◌, ◌≤◌, length, take};
ghost use Rattle.shelf.specs.Totals.{nothing, sum};
ghost use Rattle.shelf.specs.Stream.{counted, passed_to, passed, left_by, taken_by, kept_by, left_in, Took};
ghost use Rattle.shelf.specs.StreamLaws.{length_of_whole, with_rest};

use crate::totals::{TooLarge, Totals, add, count, nothing};
use ground::number::word16;

// The totals with the whole tables counted, and how many bytes those took.
#[derive(Clone, Copy)]
pub struct Passed {
    pub totals: Totals,
    pub used: usize,
}

// The totals so far, and how many bytes of a table that is not whole yet are kept.
#[derive(Clone, Copy)]
pub struct Taken {
    pub totals: Totals,
    pub left: usize,
}

// How long the table is that s begins with, where it is whole.
fn whole_length(s: &[u8]) -> Option<usize>
    ensures { result ≡ length_of_whole s.now }
{
    if s.len() < 2 {
        return None;
    }
    let n = word16(s[0], s[1]) + 2;
    if n <= s.len() {
        return Some(n);
    }
    None
}

// What the whole tables come to that s begins with. (A `while let`: a table itself says how long it is.)
fn wholes_of(s: &[u8]) -> Result<Passed, TooLarge>
    ensures { result ≡ passed nothing s.now }
{
    let mut totals = nothing();
    let mut used = 0;
    while let Some(n) = whole_length(&s[used..]) {
        totals = count(totals, &s[used..used + n])?;
        used += n;
    }
    Ok(Passed { totals, used })
}

// The totals with what `used` bytes came to.
fn with(totals: Totals, more: Totals, used: usize) -> Result<Passed, TooLarge>
    ensures { result ≡ passed_to (sum totals more) used }
{
    let totals = add(totals, more)?;
    Ok(Passed { totals, used })
}

// Counts the whole tables that s begins with. What is left is shorter than the longest table.
fn count_whole(totals: Totals, s: &[u8]) -> Result<Passed, TooLarge>
    ensures same { result ≡ passed totals s.now }
    ensures short { left_by result (length s.now) ≤ 65536 }
{
    let p = wholes_of(s)?;
    with(totals, p.totals, p.used)
}

// Counts what is left behind the whole tables, if anything is: a table that is cut off.
fn with_rest(totals: Totals, rest: &[u8]) -> Result<Totals, TooLarge>
    ensures { result ≡ with_rest totals rest.now }
{
    if rest.len() == 0 {
        return Ok(totals);
    }
    count(totals, rest)
}

// Counts all tables of s, the last of which may be cut off.
pub fn count_all(totals: Totals, s: &[u8]) -> Result<Totals, TooLarge>
    ensures { result ≡ counted totals s.now }
{
    let p = count_whole(totals, s)?;
    with_rest(p.totals, &s[p.used..])
}

// What is left behind the bytes that were used of the first `end` stands in front then; where none were used nothing is moved.
fn keep(p: Passed, room: &mut [u8], end: usize) -> Taken
    requires { (p.used ≤ end) × (end ≤ length room.old) }
    ensures { (Ok result ≡ taken_by (Ok p) end) × (room.new ≡ kept_by (Ok p) (take end room.old) room.old) }
{
    if 0 < p.used {
        room.copy_within(p.used..end, 0);
    }
    Taken {
        totals: p.totals,
        left: end - p.used,
    }
}

// A piece was read into the room, behind what was left of the one before: of its first `end` bytes the whole tables are counted, and what is
// left is kept in front. That is shorter than the longest table.
pub fn take_in(totals: Totals, room: &mut [u8], end: usize) -> Result<Taken, TooLarge>
    ensures taken { Took totals (take end room.old) room.old result room.new }
    ensures short { left_in result ≤ 65536 }
{
    let n = end.min(room.len());
    let p = count_whole(totals, &room[..n])?;
    Ok(keep(p, room, n))
}
