// Numbers as plain decimal digits.
ghost use Rattle.ground.specs.Memory.{Laid};
ghost use Rattle.print.specs.Decimal.{decimal};
ghost use Rattle.print.specs.Joined.{spaced};

use crate::digits::decimal;
use ground::memory::copy_front;

// The number's digits, with no zeros in front.
pub fn put_decimal(n: usize, out: &mut [u8]) -> usize
    ensures { Laid out.old (decimal n) result out.new }
{
    let mut text = [0u8; 20];
    let k = decimal(n as u64, &mut text);
    copy_front(&text[..k], out)
}

// A space, and the number's digits.
pub fn next_decimal(n: usize, out: &mut [u8]) -> usize
    ensures { Laid out.old (spaced (decimal n)) result out.new }
{
    let mut at = copy_front(b" ", out);
    at += put_decimal(n, &mut out[at..]);
    at
}
