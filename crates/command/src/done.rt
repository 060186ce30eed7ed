// What a command comes to.
ghost use Rattle.std.specs.Prelude.{◌≡◌};
ghost use Rattle.command.specs.Done.{went_with, done, done_of};

use deck::Deck;
use gate::fault::Fault;

// It went well: the next deck, whether that was a loading, how many bytes it wrote, and the blocks that it names. (`loading` is a fact
// of its own, and says nothing of a field beside it.)
#[derive(Clone, Copy)]
pub struct Went {
    pub next: Deck,
    pub loading: bool,
    pub len: usize,
    pub start: usize,
    pub count: usize,
}

// What went well, or the fault.
pub type Done = Result<Went, Fault>;

// It went well: the deck alone, with nothing written and no blocks named.
pub fn went_with(next: Deck) -> Went
    ensures { result ≡ went_with next }
{
    Went {
        next,
        loading: false,
        len: 0,
        start: 0,
        count: 0,
    }
}

// The same of a command.
pub fn done_with(m: Deck) -> Done
    ensures { result ≡ done_of (done m) }
{
    Ok(went_with(m))
}
