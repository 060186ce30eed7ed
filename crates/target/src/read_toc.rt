// READ TOC: what the packet asks for, and the answer.
ghost use Rattle.std.specs.Prelude.{◌≡◌, ◌≤◌, length};
ghost use Rattle.table.specs.Layout.{bound};
ghost use Rattle.target.specs.ReadToc.{ask_of, read_toc};
ghost use Rattle.target.specs.FitFacts.{ReadOff};
ghost use Rattle.target.specs.Perform.{Performed};

use command::done::{Done, Went, went_with};
use command::field::bit;
use deck::Deck;
use disc::disc::Disc;
use gate::fault::Fault;
use ground::number::{wide, word16};
use table::layout::HEADER;
use toc::answer::{TocAsk, put_toc, toc_bad};

// What the packet asks for.
fn toc_ask(p: &[u8; 12]) -> TocAsk
    ensures { result ≡ ask_of p.now }
{
    TocAsk {
        format: wide(p[2]) % 16,
        msf: bit::<1>(p[1]),
        number: p[6],
    }
}

// READ TOC, of a fit table.
pub(crate) fn read_toc(p: &[u8; 12], m: Deck, t: &[u8], disc: Disc, mem: &mut [u8]) -> Done
    requires { ReadOff t.now disc × (bound ≤ length mem.old) }
    ensures { Performed (read_toc p.now m t.now) mem.old result mem.new }
{
    let ask = toc_ask(p);
    if toc_bad(disc, ask) {
        return Err(Fault::BadField);
    }
    let len = put_toc(&t[HEADER..], disc, ask, word16(p[7], p[8]), mem);
    Ok(Went {
        len,
        ..went_with(m)
    })
}
