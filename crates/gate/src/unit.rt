// What the gate does to the attention unit.
ghost use Rattle.std.specs.Prelude.{◌≡◌};
ghost use Rattle.gate.specs.Unit.{hold, clear, pending_of, attention_sense, told, give};
ghost use Rattle.gate.specs.Gate.{sense_bytes};

use attention::Unit;
use attention::sense::{CHANGED, NO_SENSE, POWERED, Sense, sense_at};

// An attention that is pending.
#[derive(Clone, Copy)]
pub enum Pending {
    Power,
    Change,
}

// What REQUEST SENSE gives, and the unit then.
#[derive(Clone, Copy)]
pub struct Giving {
    pub sense: Sense,
    pub unit: Unit,
}

// The unit with the triple held as sense.
pub fn hold(u: Unit, sense: Sense) -> Unit
    ensures { result ≡ hold sense u }
{
    Unit { sense, ..u }
}

// The unit after GOOD: sense 00/00/00.
pub fn clear(u: Unit) -> Unit
    ensures { result ≡ clear u }
{
    hold(u, sense_at(NO_SENSE))
}

// The attention that is told next, if one is pending: power first.
pub fn first_pending(u: Unit) -> Option<Pending>
    ensures { result ≡ pending_of u }
{
    if u.power {
        return Some(Pending::Power);
    }
    if u.change {
        return Some(Pending::Change);
    }
    None
}

// That attention stops being pending.
pub fn told(u: Unit, a: Option<Pending>) -> Unit
    ensures { result ≡ told a u }
{
    match a {
        Some(Pending::Power) => Unit { power: false, ..u },
        Some(Pending::Change) => Unit { change: false, ..u },
        None => u,
    }
}

// The triple of an attention; 00/00/00 for none.
pub fn sense_of_pending(a: Option<Pending>) -> Sense
    ensures { result ≡ attention_sense a }
{
    match a {
        Some(Pending::Power) => sense_at(POWERED),
        Some(Pending::Change) => sense_at(CHANGED),
        None => sense_at(NO_SENSE),
    }
}

// REQUEST SENSE: a held sense is given and cleared, attentions untouched; else a pending attention, power first, is given and cleared.
pub fn give(u: Unit) -> Giving
    ensures { result ≡ give u }
{
    let held = u.sense;
    if held == sense_at(NO_SENSE) {
        let a = first_pending(u);
        return Giving {
            sense: sense_of_pending(a),
            unit: clear(told(u, a)),
        };
    }
    Giving {
        sense: held,
        unit: clear(u),
    }
}

// REQUEST SENSE's 18 bytes of a triple.
pub fn sense_bytes(s: Sense) -> [u8; 18]
    ensures { result ≡ sense_bytes s }
{
    [
        0x70, 0, s.key, 0, 0, 0, 0, 0x0A, 0, 0, 0, 0, s.asc, s.ascq, 0, 0, 0, 0,
    ]
}
