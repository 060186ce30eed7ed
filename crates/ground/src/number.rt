// Numbers in bytes, the high byte first; and the smaller of two.
ghost use Rattle.std.specs.Prelude.{◌≡◌, ◌<◌, min};
ghost use Rattle.ground.specs.Number.{Byte, word16, word32, bytes16, bytes32};

// The byte as a wide number. (Beside `usize::from` it promises that the number is a byte's.)
pub fn wide(b: u8) -> usize
    ensures { Byte b result }
{
    usize::from(b)
}

// The number that two bytes write.
pub fn word16(high: u8, low: u8) -> usize
    ensures { result ≡ word16 high low }
{
    usize::from(u16::from_be_bytes([high, low]))
}

// The number that four bytes write.
pub fn word32(a: u8, b: u8, c: u8, d: u8) -> usize
    ensures same { result ≡ word32 a b c d }
    ensures small { result < 4294967296 }
{
    u32::from_be_bytes([a, b, c, d]) as usize
}

// The two bytes that write n, cut to 16 bits.
pub fn bytes16(n: usize) -> [u8; 2]
    ensures { result ≡ bytes16 n }
{
    ((n % 65536) as u16).to_be_bytes()
}

// The four bytes that write n, cut to 32 bits.
pub fn bytes32(n: usize) -> [u8; 4]
    ensures { result ≡ bytes32 n }
{
    ((n % 4294967296) as u32).to_be_bytes()
}

// The smaller of two numbers. (Our crates call `min`; docs/PROMISES.md names this function, with `unique_smaller`.)
pub fn smaller(a: usize, b: usize) -> usize
    ensures { result ≡ min a b }
{
    a.min(b)
}
