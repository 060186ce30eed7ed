// What is printed: thirteen lines, or one.
ghost use Rattle.ground.specs.Memory.{Laid};
ghost use Rattle.shelftotals.specs.Told.{lines, told};

use ground::memory::copy_front;
use print::numbers::put_joined;
use shelf::totals::{TooLarge, Totals, numbers};

// The totals, a line each.
fn put_lines(totals: Totals, out: &mut [u8]) -> usize
    ensures { Laid out.old (lines totals) result out.new }
{
    let mut at = put_joined(&numbers(totals), b'\n', out);
    at += copy_front(b"\n", &mut out[at..]);
    at
}

// The totals, or that one of them is too large.
pub(crate) fn put_told(counted: Result<Totals, TooLarge>, out: &mut [u8]) -> usize
    ensures { Laid out.old (told counted) result out.new }
{
    match counted {
        Ok(totals) => put_lines(totals, out),
        Err(TooLarge) => copy_front(b"total too large\n", out),
    }
}
