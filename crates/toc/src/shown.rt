// What is shown of the table's descriptors, laid into the response memory: each descriptor into the part that begins where the one
// before ended. (That descriptor j is there is asked at each read, of plain bytes: a type of whole descriptors would be no plainer.)
ghost use Rattle.std.specs.Prelude.{◌≡◌, ◌+◌, ◌*◌, ◌≤◌, length, take, drop};
ghost use Rattle.ground.specs.Memory.{Laid};
ghost use Rattle.table.specs.Layout.{row, rows};
ghost use Rattle.toc.specs.Shown.{described, is_shown, described_row, shown_track};
ghost use Rattle.toc.specs.ShownLaws.{shown, listed, shown_count};

use address::{address_of, shown_address};
use ground::memory::copy_front;
use ground::number::wide;
use table::layout::{FLAGS, PFRAME, PMIN, POINT, PSEC, ROW, is_track};

// What is shown of the table's descriptors: eight bytes for each track numbered `from` or more, or each descriptor whole. (Two kinds, and no Option: whole
// is a way to be shown.)
#[derive(Clone, Copy)]
pub enum Show {
    Tracks { msf: bool, from: u8 },
    Whole,
}

// A descriptor of eight bytes, laid into the rest of the response.
pub(crate) fn put_described(msf: bool, flags: u8, number: u8, a: usize, rest: &mut [u8]) -> usize
    ensures { Laid rest.old (described msf flags number a) result rest.new }
{
    let b = shown_address(msf, a);
    let full = [0, flags, number, 0, b[0], b[1], b[2], b[3]];
    copy_front(&full, rest)
}

// Descriptor j of the table is shown: a track numbered n or more.
fn is_shown(d: &[u8], n: u8, j: usize) -> bool
    requires { row * j + row ≤ length d.now }
    ensures { result ≡ is_shown n d.now j }
{
    let at = ROW * j;
    let p = d[at + POINT];
    is_track(wide(p)) && n <= p
}

// How many descriptors are shown.
pub(crate) fn shown_count(d: &[u8], n: u8) -> usize
    ensures { result ≡ shown_count n d.now (rows d.now) }
{
    let mut k = 0;
    for j in 0..d.len() / ROW {
        if is_shown(d, n, j) {
            k += 1;
        }
    }
    k
}

// The eight bytes for descriptor j, laid into the rest of the response.
fn put_described_row(d: &[u8], msf: bool, j: usize, rest: &mut [u8]) -> usize
    requires { row * j + row ≤ length d.now }
    ensures { Laid rest.old (described_row msf d.now j) result rest.new }
{
    let at = ROW * j;
    let a = address_of(d[at + PMIN], d[at + PSEC], d[at + PFRAME]);
    put_described(msf, d[at + FLAGS], d[at + POINT], a, rest)
}

// Descriptor j, if it is shown, laid into the rest of the response.
fn put_track(d: &[u8], msf: bool, n: u8, j: usize, rest: &mut [u8]) -> usize
    requires { row * j + row ≤ length d.now }
    ensures { Laid rest.old (shown_track msf n d.now j) result rest.new }
{
    if is_shown(d, n, j) {
        return put_described_row(d, msf, j, rest);
    }
    0
}

// A whole descriptor of the table, laid into the rest of the response.
fn put_row(s: &[u8], j: usize, rest: &mut [u8]) -> usize
    requires { row * j + row ≤ length s.now }
    ensures { Laid rest.old (take row (drop (row * j) s.now)) result rest.new }
{
    let at = ROW * j;
    copy_front(&s[at..at + ROW], rest)
}

// What is shown of descriptor j, laid into the rest of the response.
fn put_one(d: &[u8], show: Show, j: usize, rest: &mut [u8]) -> usize
    requires { row * j + row ≤ length d.now }
    ensures { Laid rest.old (shown show d.now j) result rest.new }
{
    match show {
        Show::Tracks { msf, from } => put_track(d, msf, from, j, rest),
        Show::Whole => put_row(d, j, rest),
    }
}

// What is shown of every descriptor, each where the one before ended.
pub(crate) fn put_all(d: &[u8], show: Show, part: &mut [u8]) -> usize
    ensures { Laid part.old (listed show d.now (rows d.now)) result part.new }
{
    let mut at = 0;
    for j in 0..d.len() / ROW {
        at += put_one(d, show, j, &mut part[at..]);
    }
    at
}
