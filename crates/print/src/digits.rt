// The digits of a number of 64 bits, laid into twenty bytes, which hold any.
ghost use Rattle.std.specs.Prelude.{◌≡◌, ◌+◌, ◌<◌, ◌≤◌, length, take, drop};
ghost use Rattle.print.specs.Digits.{last_digits, IsDigitCount, IsPrefixLen};

// Puts n's decimal digits at the start of out, and says how many there are.
pub(crate) fn decimal(n: u64, out: &mut [u8; 20]) -> usize
    ensures in_bounds { IsPrefixLen result out.new }
    ensures len { IsDigitCount 10 1 n result }
    ensures digits { take result out.new ≡ last_digits 10 result n }
{
    let k = digit_count(n);
    write_digits(n, k, out);
    k
}

// How many digits n takes.
fn digit_count(n: u64) -> usize
    ensures { IsDigitCount 10 1 n result }
{
    let mut k = 1;
    let mut rest = n / 10;
    // The library has no `ilog10`, and a chain of the tenths is no plainer: `successors(..).take_while(..).count()`.
    while rest > 0 {
        rest /= 10;
        k += 1;
    }
    k
}

// Puts the last k digits of n at the start of out.
fn write_digits(n: u64, k: usize, out: &mut [u8])
    requires { k ≤ length out.old }
    ensures { take k out.new ≡ last_digits 10 k n }
{
    let mut rest = n;
    for i in (0..k).rev() {
        out[i] = b'0' + (rest % 10) as u8;
        rest /= 10;
    }
}
