// What the one walk over the table asks of a descriptor where it stands.
ghost use Rattle.std.specs.Prelude.{◌≡◌};
ghost use Rattle.table.specs.Asked.{kept, a0_kept, a1_kept, extra_kept, climbs, holds};

use crate::layout::{A0, A1};
use crate::row::{Row, frames_of, free, head_a0, head_a1, simple};

// It is of session k, has POINT p, and has ADR 1, TNO 0 and ZERO 0.
pub fn kept(r: Row, k: u8, p: u8) -> bool
    ensures { result ≡ kept r k p }
{
    r.session == k && r.point == p && simple(r)
}

// All that is asked of session k's A0 beside its track.
pub fn a0_kept(r: Row, k: u8) -> bool
    ensures { result ≡ a0_kept r k }
{
    kept(r, k, A0) && head_a0(r)
}

// The same of its A1. (Not one function with A0's: it would take the POINT and the test of it, and be no plainer.)
pub fn a1_kept(r: Row, k: u8) -> bool
    ensures { result ≡ a1_kept r k }
{
    kept(r, k, A1) && head_a1(r)
}

// All that is asked of a B0h or C0h of session k.
pub fn extra_kept(r: Row, k: u8) -> bool
    ensures { result ≡ extra_kept r k }
{
    r.session == k && free(r)
}

// It holds an address that is `low` or later, with seconds and frames of rule 6. Its minute is not tested: the lead-out after it bounds that.
pub fn climbs(r: Row, low: usize) -> bool
    ensures { result ≡ climbs r low }
{
    r.psec <= 59 && r.pframe <= 74 && low <= frames_of(r)
}

// It holds an address of rule 6 that is `low` or later.
pub fn holds(r: Row, low: usize) -> bool
    ensures { result ≡ holds r low }
{
    r.pmin <= 99 && climbs(r, low)
}
