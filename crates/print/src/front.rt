// The front of a slice.
ghost use Rattle.print.specs.Front.{FrontOf};

// The first n bytes of s, all of them where it has fewer.
pub fn front(s: &[u8], n: usize) -> &[u8]
    ensures { FrontOf s.entry result n }
{
    &s[..n.min(s.len())]
}
