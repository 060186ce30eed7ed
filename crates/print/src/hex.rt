// Bytes as capital hex digits, two a byte.
ghost use Rattle.std.specs.Prelude.{◌≡◌};
ghost use Rattle.ground.specs.Memory.{Laid};
ghost use Rattle.print.specs.Hex.{hex_digit, hex_byte, hexes, shown};
ghost use Rattle.print.specs.Joined.{spaced, ◌next◌};

use ground::memory::copy_front;

// The digit that the last four bits of n write.
pub fn hex_digit(n: u8) -> u8
    ensures { result ≡ hex_digit n }
{
    let d = n % 16;
    if d < 10 {
        return b'0' + d;
    }
    b'A' - 10 + d
}

// A byte's two digits.
pub fn put_hex(b: u8, out: &mut [u8]) -> usize
    ensures { Laid out.old (hex_byte b) result out.new }
{
    let two = [hex_digit(b / 16), hex_digit(b)];
    copy_front(&two, out)
}

// The digits of all the bytes, one after the other.
pub fn put_hexes(bytes: &[u8], out: &mut [u8]) -> usize
    ensures { Laid out.old (hexes bytes.now) result out.new }
{
    let mut at = 0;
    for b in bytes {
        at += put_hex(*b, &mut out[at..]);
    }
    at
}

// The digits of the bytes, or "-" where there are none.
#[tactic(auto, using(crate::specs::Hex::shown_cases))]
pub fn put_shown(bytes: &[u8], out: &mut [u8]) -> usize
    ensures { Laid out.old (shown bytes.now) result out.new }
{
    if bytes.is_empty() {
        return copy_front(b"-", out);
    }
    put_hexes(bytes, out)
}

// A space, and a byte's two digits.
pub fn next_hex(b: u8, out: &mut [u8]) -> usize
    ensures { Laid out.old (spaced (hex_byte b)) result out.new }
{
    let text = [b' ', hex_digit(b / 16), hex_digit(b)];
    copy_front(&text, out)
}

// A space before each of three bytes' digits.
pub fn next_three(a: u8, b: u8, c: u8, out: &mut [u8]) -> usize
    ensures { Laid out.old (spaced (hex_byte a) next spaced (hex_byte b) next spaced (hex_byte c)) result out.new }
{
    let text = [
        b' ',
        hex_digit(a / 16),
        hex_digit(a),
        b' ',
        hex_digit(b / 16),
        hex_digit(b),
        b' ',
        hex_digit(c / 16),
        hex_digit(c),
    ];
    copy_front(&text, out)
}

// A space, and the digits of the bytes or "-".
pub fn next_shown(bytes: &[u8], out: &mut [u8]) -> usize
    ensures { Laid out.old (spaced (shown bytes.now)) result out.new }
{
    let mut at = copy_front(b" ", out);
    at += put_shown(bytes, &mut out[at..]);
    at
}
