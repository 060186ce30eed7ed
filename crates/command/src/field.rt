// Bits of a packet's byte.
ghost use Rattle.std.specs.Prelude.{◌≡◌};
ghost use Rattle.command.specs.Command.{bit};

// Bit N of a packet's byte, N below 8: `wrapping_shr` takes any N, so that nothing is asked of a caller.
pub fn bit<const N: u32>(b: u8) -> bool
    ensures { result ≡ bit N b }
{
    b.wrapping_shr(N) % 2 == 1
}
