// One packet met by the drive, its lent table, its parameter list and its response memory.
ghost use Rattle.std.specs.Prelude.{◌≡◌, true, ◌≤◌, length};
ghost use Rattle.drive.specs.State.{is_known_state};
ghost use Rattle.table.specs.Layout.{bound};
ghost use Rattle.gate.specs.Gate.{request_sense, pass, gate};
ghost use Rattle.target.specs.Perform.{perform};
ghost use Rattle.outcome.specs.Outcome.{Answered};
ghost use Rattle.target.specs.Packet.{answer};
ghost use Rattle.target.specs.PerformLaws.{Ready};
ghost use Rattle.target.specs.PacketLaws.{unread, steps_of};

use crate::perform::perform;
use command::decode::{Command, Kind, decode, kind_of};
use disc::disc::{Disc, read};
use disc::part::UNFIT;
use drive::state::{Drive, UNKNOWN_STATE};
use gate::unit::{clear, first_pending, give, sense_bytes};
use ground::memory::put_cut;
use ground::number::wide;
use outcome::{Outcome, finish, good, refuse, tell};
use table::layout::BOUND;

// The refusals that only packets give. (Numbers, as the definition gives them and C reads them.)
pub const NOT_TWELVE: u8 = 1;

pub const SHORT_MEMORY: u8 = 3;

// REQUEST SENSE: the 18 bytes, cut to the length asked for.
fn ask_sense(d: Drive, limit: usize, mem: &mut [u8]) -> Outcome
    requires { bound ≤ length mem.old }
    ensures { Answered (request_sense limit d.unit d.deck) mem.old result mem.new }
{
    let deck = d.deck;
    let g = give(d.unit);
    let unit = g.unit;
    let full = sense_bytes(g.sense);
    let len = put_cut(&full, limit, mem);
    good(len, 0, 0, unit, deck)
}

// Step 1: performed even with an attention pending; GOOD leaves the sense. (Packet, table and list go side by side, as the definition `perform` takes
// them: a struct of them would be opened at each call, and be no plainer.)
fn passed(
    d: Drive,
    c: Command,
    p: &[u8; 12],
    t: &[u8],
    list: &[u8],
    disc: Disc,
    mem: &mut [u8],
) -> Outcome
    requires { Ready d.deck t.now disc mem.old }
    ensures { Answered (pass d.unit d.deck (perform c p.now d.deck t.now list.now)) mem.old result mem.new }
{
    let unit = d.unit;
    let deck = d.deck;
    let done = perform(c, p, deck, t, list, disc, mem);
    finish(unit, unit, deck, done)
}

// Step 2: a pending attention is told, power first; with none the command is performed.
fn gated(
    d: Drive,
    c: Command,
    p: &[u8; 12],
    t: &[u8],
    list: &[u8],
    disc: Disc,
    mem: &mut [u8],
) -> Outcome
    requires { Ready d.deck t.now disc mem.old }
    ensures { Answered (gate d.unit d.deck (perform c p.now d.deck t.now list.now)) mem.old result mem.new }
{
    let unit = d.unit;
    let deck = d.deck;
    let a = first_pending(unit);
    match a {
        Some(_) => tell(a, unit, deck),
        None => {
            let done = perform(c, p, deck, t, list, disc, mem);
            finish(unit, clear(unit), deck, done)
        }
    }
}

// The steps, by how the command meets a pending attention.
fn steps(d: Drive, p: &[u8; 12], t: &[u8], list: &[u8], disc: Disc, mem: &mut [u8]) -> Outcome
    requires { Ready d.deck t.now disc mem.old }
    ensures { Answered (steps_of d p.now t.now list.now) mem.old result mem.new }
{
    let c = decode(p[0]);
    match kind_of(c) {
        Kind::Asks => ask_sense(d, wide(p[4]), mem),
        Kind::Passes => passed(d, c, p, t, list, disc, mem),
        Kind::Gates => gated(d, c, p, t, list, disc, mem),
    }
}

// No disc was read. (Not an `Option<Disc>`: each arm of `work` that reads the disc would have to open it, and be no plainer.)
fn unread() -> Disc
    ensures { result ≡ unread }
{
    Disc::default()
}

// Refusal 4, with the broken rule: a loaded drive's table is read first.
fn meet(d: Drive, p: &[u8; 12], t: &[u8], list: &[u8], mem: &mut [u8]) -> Outcome
    requires { (is_known_state d ≡ true) × (bound ≤ length mem.old) }
    ensures { Answered (answer d p.now t.now list.now (length mem.old)) mem.old result mem.new }
{
    if d.deck.is_loaded() {
        return match read(t) {
            Ok(disc) => steps(d, p, t, list, disc, mem),
            Err(unfit) => refuse(UNFIT, unfit.rule, d),
        };
    }
    steps(d, p, t, list, unread(), mem)
}

// A packet met by the drive, with a disc table, a parameter list and a response memory: the refusals 1, 2, 3, 4 in order, then the steps.
pub fn packet(d: Drive, p: &[u8], t: &[u8], list: &[u8], mem: &mut [u8]) -> Outcome
    ensures { Answered (answer d p.now t.now list.now (length mem.old)) mem.old result mem.new }
{
    let Ok(p) = <&[u8; 12]>::try_from(p) else {
        return refuse(NOT_TWELVE, 0, d);
    };
    if !d.is_known_state() {
        return refuse(UNKNOWN_STATE, 0, d);
    }
    if mem.len() < BOUND {
        return refuse(SHORT_MEMORY, 0, d);
    }
    meet(d, p, t, list, mem)
}
