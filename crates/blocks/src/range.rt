// The range of addresses; l is the last lead-out.
ghost use Rattle.std.specs.Prelude.{◌≡◌, ◌-◌};
ghost use Rattle.blocks.specs.Range.{over, in_range};

// The last block's address; 0 where there is no block.
pub(crate) fn last_block(l: usize) -> usize
    ensures { result ≡ l - 1 }
{
    l.saturating_sub(1)
}

// The address is over the last block's.
pub(crate) fn over(a: usize, l: usize) -> bool
    ensures { result ≡ over a l }
{
    last_block(l) < a
}

// The address is not over the last block's, and the n blocks from it on end at the lead-out or before.
pub fn in_range(a: usize, n: usize, l: usize) -> bool
    ensures { result ≡ in_range a n l }
{
    !over(a, l) && n <= l - a
}
