// Adler-32.
ghost use Rattle.std.specs.Prelude.{◌≡◌};
ghost use Rattle.print.specs.Sum.{adler32};

use ground::number::wide;

const MODULUS: usize = 65521;

// The Adler-32 of the bytes.
pub fn adler32(s: &[u8]) -> usize
    ensures { result ≡ adler32 s.now }
{
    let mut a = 1;
    let mut b = 0;
    for x in s {
        a = (a + wide(*x)) % MODULUS;
        b = (b + a) % MODULUS;
    }
    b * 65536 + a
}
