// A descriptor of the table, read once into a value, and the tests that rules 3, 5 and 6 make of one.
ghost use Rattle.std.specs.Prelude.{◌≡◌, ◌≤◌};
ghost use Rattle.table.specs.Row.{row_of, frames_of, start_of, simple, free, plain, head_a0, head_a1, headed, addressed, row_test};

use crate::layout::{A0, A1, A2, ROW, is_extra, is_track};
use address::{address_of, is_msf};
use ground::number::wide;

// A descriptor's eleven bytes by name: ADR and control are one of them.
#[derive(Clone, Copy, Default)]
pub struct Row {
    pub session: u8,
    pub flags: u8,
    pub tno: u8,
    pub point: u8,
    pub min: u8,
    pub sec: u8,
    pub frame: u8,
    pub zero: u8,
    pub pmin: u8,
    pub psec: u8,
    pub pframe: u8,
}

// The descriptor that eleven bytes write; a blank one off any other number of bytes.
pub fn row_of(b: &[u8]) -> Row
    ensures { result ≡ row_of b.now }
{
    if b.len() != ROW {
        return Row::default();
    }
    Row {
        session: b[0],
        flags: b[1],
        tno: b[2],
        point: b[3],
        min: b[4],
        sec: b[5],
        frame: b[6],
        zero: b[7],
        pmin: b[8],
        psec: b[9],
        pframe: b[10],
    }
}

// The address that it holds, counted in frames from 00:00:00 on. (`address` has the formula for three bytes, as its own: a public function more
// would be no plainer.)
#[tactic(auto, unfolding(crate::specs::Row::frames_of))]
pub fn frames_of(r: Row) -> usize
    ensures same { result ≡ frames_of r }
    ensures small { result ≤ 1166880 }
{
    (wide(r.pmin) * 60 + wide(r.psec)) * 75 + wide(r.pframe)
}

// The block address that it holds.
#[tactic(auto, unfolding(crate::specs::Row::start_of))]
pub fn start_of(r: Row) -> usize
    ensures { result ≡ start_of r }
{
    address_of(r.pmin, r.psec, r.pframe)
}

// ADR 1, TNO 0 and ZERO 0.
pub(crate) fn simple(r: Row) -> bool
    ensures { result ≡ simple r }
{
    wide(r.flags) / 16 == 1 && r.tno == 0 && r.zero == 0
}

// ADR 5 and TNO 0; the rest is free.
pub(crate) fn free(r: Row) -> bool
    ensures { result ≡ free r }
{
    wide(r.flags) / 16 == 5 && r.tno == 0
}

// Rule 3, by POINT. Most descriptors are simple, so that is asked first.
fn plain(r: Row) -> bool
    ensures { result ≡ plain r }
{
    if simple(r) {
        return !is_extra(r.point);
    }
    is_extra(r.point) && free(r)
}

// A0's PSEC is 00h, 10h or 20h and its PFRAME 0.
pub(crate) fn head_a0(r: Row) -> bool
    ensures { result ≡ head_a0 r }
{
    r.pframe == 0 && wide(r.psec) % 16 == 0 && r.psec <= 0x20
}

// A1's PSEC and PFRAME are 0.
pub(crate) fn head_a1(r: Row) -> bool
    ensures { result ≡ head_a1 r }
{
    r.psec == 0 && r.pframe == 0
}

// Rule 5: what A0 and A1 hold beside their track.
fn headed(r: Row) -> bool
    ensures { result ≡ headed r }
{
    if r.point == A0 {
        return head_a0(r);
    }
    if r.point == A1 {
        return head_a1(r);
    }
    true
}

// Rule 6: a lead-out or a track holds an address.
fn addressed(r: Row) -> bool
    ensures { result ≡ addressed r }
{
    if r.point == A2 || is_track(wide(r.point)) {
        return is_msf(r.pmin, r.psec, r.pframe);
    }
    true
}

// The test that rule n, one of 3, 5 and 6, makes of it. The rule stays a number: a kind of three would narrow what `row_test` takes, and the
// definition `row_test n` and its laws speak of the number.
pub fn row_test(n: usize, r: Row) -> bool
    ensures { result ≡ row_test n r }
{
    match n {
        3 => plain(r),
        5 => headed(r),
        _ => addressed(r),
    }
}
