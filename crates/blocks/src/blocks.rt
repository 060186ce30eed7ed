// What READ CAPACITY, SEEK and READ come to; l is the last lead-out.
ghost use Rattle.std.specs.Prelude.{◌≡◌};
ghost use Rattle.command.specs.Done.{done_of};
ghost use Rattle.blocks.specs.Blocks.{capacity, stopped, seek, read};

use crate::range::{in_range, last_block, over};
use command::done::{Done, Went, done_with, went_with};
use deck::Deck;
use gate::fault::Fault;
use ground::number::bytes32;
use play::NONE;

// READ CAPACITY: the last block's address and 2,048.
pub fn capacity_bytes(l: usize) -> [u8; 8]
    ensures { result ≡ capacity l }
{
    let a = bytes32(last_block(l));
    [a[0], a[1], a[2], a[3], 0, 0, 8, 0]
}

// Nothing is played any more; position and end stay.
fn stopped(m: Deck) -> Deck
    ensures { result ≡ stopped m }
{
    m.with_play(m.play.with_status(NONE))
}

// SEEK: an address in range.
pub fn seek(a: usize, l: usize, m: Deck) -> Done
    ensures { result ≡ done_of (seek a l m) }
{
    if over(a, l) {
        return Err(Fault::OutOfRange);
    }
    done_with(stopped(m))
}

// READ: range first, then track mode (`all` says that every block lies in a data track); it names its blocks.
pub fn read_blocks(all: bool, a: usize, n: usize, l: usize, m: Deck) -> Done
    ensures { result ≡ done_of (read all a n l m) }
{
    if !in_range(a, n, l) {
        return Err(Fault::OutOfRange);
    }
    if !all {
        return Err(Fault::IllegalMode);
    }
    Ok(Went {
        start: a,
        count: n,
        ..went_with(stopped(m))
    })
}
