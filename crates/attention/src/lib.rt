// The attention unit: which attentions are pending, and the held sense.
#![tactic(auto)]

pub mod sense;

ghost use Rattle.std.specs.Prelude.{◌≡◌};
ghost use Rattle.attention.specs.Unit.{powered_on, attend};

use crate::sense::{NO_SENSE, Sense, sense_at};

// What is pending and what is held: this is the same for every device that stands behind the gate.
#[repr(C)]
#[derive(Clone, Copy)]
pub struct Unit {
    pub power: bool,
    pub change: bool,
    pub sense: Sense,
}

impl Unit {
    // Power-on: sense 00/00/00, power attention pending, and the change attention where the form of power-on says so.
    pub fn powered_on(self, change: bool) -> Unit
        ensures { result ≡ powered_on change }
    {
        Unit {
            power: true,
            change,
            sense: sense_at(NO_SENSE),
        }
    }

    // A loading: the change attention becomes pending.
    pub fn attend(self, loading: bool) -> Unit
        ensures { result ≡ attend loading self }
    {
        if loading {
            return Unit {
                change: true,
                ..self
            };
        }
        self
    }
}
