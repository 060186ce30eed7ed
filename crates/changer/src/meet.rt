// One packet met by the changer. (That the slots are few and hold the home, and that the memory has room, ties values to what is lent for one call: a
// type of them would borrow all that, and be no plainer.)
ghost use Rattle.std.specs.Prelude.{◌≡◌, true, false, ◌≤◌, length};
ghost use Rattle.table.specs.Layout.{bound};
ghost use Rattle.gate.specs.Gate.{gate};
ghost use Rattle.changer.specs.Slot.{most};
ghost use Rattle.changer.specs.MechanismLaws.{Homed, ActedOn};
ghost use Rattle.changer.specs.ChangerPacket.{mechanism_of, is_own, own, answer};
ghost use Rattle.changer.specs.ChangerPacketLaws.{AnsweredBy, Passed, refused_with, outcome_with};

use crate::load::{Act, failed, load_unload};
use crate::slots::{is_in_order, staying};
use crate::status::mechanism_status;
use crate::{Changer, Met, Moves, Slot};
use command::field::bit;
use disc::disc::read;
use disc::part::UNFIT;
use drive::state::UNKNOWN_STATE;
use gate::fault::Fault;
use gate::unit::{clear, first_pending};
use ground::number::word16;
use outcome::{Outcome, finish, refuse, tell};
use table::layout::BOUND;
use target::packet::{NOT_TWELVE, SHORT_MEMORY, packet};

// The refusal that the changer adds. (A number, beside those of `target`.)
pub const OUT_OF_ORDER: u8 = 11;

// LOAD/UNLOAD and MECHANISM STATUS; and START/STOP UNIT, whose LoEj a changer has not. (Codes of packets, as the definition prints them.)
const LOAD_UNLOAD: u8 = 0xA6;

const MECHANISM_STATUS: u8 = 0xBD;

const START_STOP: u8 = 0x1B;

// A refusal: nothing done, state and slots as they were handed in.
fn refused(number: u8, rule: u8, c: Changer) -> Met
    ensures { result ≡ refused_with number rule c }
{
    Met {
        outcome: refuse(number, rule, c),
        moves: staying(),
    }
}

// What the drive hands back, with the home and what becomes of the slots.
fn with_home(o: Outcome, home: u8, moves: Option<Moves>) -> Met
    ensures { result ≡ outcome_with o home moves }
{
    let drive = o.state;
    Met {
        outcome: o.with_state(Changer { drive, home }),
        moves,
    }
}

// The packet is not answered as by the drive.
fn is_own(p: &[u8; 12]) -> bool
    ensures { result ≡ is_own p.now }
{
    match p[0] {
        LOAD_UNLOAD | MECHANISM_STATUS => true,
        START_STOP => bit::<1>(p[4]),
        _ => false,
    }
}

// Step 5 of such a packet.
fn own(p: &[u8; 12], c: Changer, slots: &[Slot], mem: &mut [u8]) -> Act
    requires { (bound ≤ length mem.old) × (length slots.now ≤ most) × Homed (mechanism_of c slots.now) }
    ensures { ActedOn (own p.now (mechanism_of c slots.now)) (mechanism_of c slots.now) mem.old result mem.new }
{
    match p[0] {
        LOAD_UNLOAD => load_unload(bit::<1>(p[4]), bit::<0>(p[4]), p[8], c, slots),
        MECHANISM_STATUS => mechanism_status(word16(p[8], p[9]), c, slots, mem),
        _ => failed(Fault::BadField, c.home),
    }
}

// Step 2 of such a packet: a pending attention is told, power first; with none it is performed.
fn gated(slots: &[Slot], c: Changer, p: &[u8; 12], mem: &mut [u8]) -> Met
    requires { (bound ≤ length mem.old) × (length slots.now ≤ most) × Homed (mechanism_of c slots.now) }
    ensures { AnsweredBy (gate c.drive.unit (mechanism_of c slots.now) (own p.now (mechanism_of c slots.now))) slots.now mem.old result mem.new }
{
    let unit = c.drive.unit;
    let deck = c.drive.deck;
    let a = first_pending(unit);
    match a {
        Some(_) => with_home(tell(a, unit, deck), c.home, staying()),
        None => {
            let act = own(p, c, slots, mem);
            let done = act.done;
            let moves = act.moves;
            with_home(finish(unit, clear(unit), deck, done), act.home, moves)
        }
    }
}

// Such a packet: with a disc in the drive its table is read first.
fn own_packet(
    slots: &[Slot],
    c: Changer,
    p: &[u8; 12],
    t: &[u8],
    list: &[u8],
    mem: &mut [u8],
) -> Met
    requires { Passed c slots.now p.now (length mem.old) × (is_own p.now ≡ true) }
    ensures { AnsweredBy (answer c slots.now p.now t.now list.now (length mem.old)) slots.now mem.old result mem.new }
{
    if c.drive.deck.is_loaded() {
        if let Err(unfit) = read(t) {
            return refused(UNFIT, unfit.rule, c);
        }
    }
    gated(slots, c, p, mem)
}

// Past the refusals 1, 2, 3 and 11: the changer's own packets, and any other as by the drive.
fn passed(slots: &[Slot], c: Changer, p: &[u8; 12], t: &[u8], list: &[u8], mem: &mut [u8]) -> Met
    requires { Passed c slots.now p.now (length mem.old) }
    ensures { AnsweredBy (answer c slots.now p.now t.now list.now (length mem.old)) slots.now mem.old result mem.new }
{
    if is_own(p) {
        return own_packet(slots, c, p, t, list, mem);
    }
    with_home(packet(c.drive, p, t, list, mem), c.home, staying())
}

// A packet met by the changer: the refusals 1, 2, 3 and 11 in order, then 4 and the steps.
pub(crate) fn meet(
    slots: &[Slot],
    c: Changer,
    p: &[u8],
    t: &[u8],
    list: &[u8],
    mem: &mut [u8],
) -> Met
    ensures { AnsweredBy (answer c slots.now p.now t.now list.now (length mem.old)) slots.now mem.old result mem.new }
{
    let Ok(p) = <&[u8; 12]>::try_from(p) else {
        return refused(NOT_TWELVE, 0, c);
    };
    if !c.drive.is_known_state() {
        return refused(UNKNOWN_STATE, 0, c);
    }
    if mem.len() < BOUND {
        return refused(SHORT_MEMORY, 0, c);
    }
    if !is_in_order(c, slots) {
        return refused(OUT_OF_ORDER, 0, c);
    }
    passed(slots, c, p, t, list, mem)
}
