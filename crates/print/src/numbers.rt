// Numbers one after the other, with a mark between them.
ghost use Rattle.ground.specs.Memory.{Laid};
ghost use Rattle.print.specs.Numbers.{mark_at, next_at, joined};

use crate::decimal::put_decimal;
use ground::memory::copy_front;

// The mark before the number after i others: none before the first, where 0 bytes are laid.
fn put_mark(i: usize, mark: u8, out: &mut [u8]) -> usize
    ensures { Laid out.old (mark_at mark i) result out.new }
{
    if i == 0 {
        return 0;
    }
    copy_front(&[mark], out)
}

// The number after i others, and the mark before it.
fn put_next(i: usize, mark: u8, n: usize, out: &mut [u8]) -> usize
    ensures { Laid out.old (next_at mark i n) result out.new }
{
    let mut at = put_mark(i, mark, out);
    at += put_decimal(n, &mut out[at..]);
    at
}

// The numbers' digits, with the mark between each two.
pub fn put_joined(numbers: &[u64], mark: u8, out: &mut [u8]) -> usize
    ensures { Laid out.old (joined mark numbers.now) result out.new }
{
    let mut at = 0;
    for (i, n) in numbers.iter().enumerate() {
        at += put_next(i, mark, *n as usize, &mut out[at..]);
    }
    at
}
