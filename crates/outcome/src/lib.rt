// What a packet hands back: a refusal, CHECK CONDITION or GOOD.
#![tactic(auto)]

ghost use Rattle.std.specs.Prelude.{◌≡◌};
ghost use Rattle.gate.specs.Unit.{attention_sense, told};
ghost use Rattle.outcome.specs.Outcome.{with_state, refused, checked, granted, finished};

use attention::Unit;
use attention::sense::Sense;
use command::done::Done;
use deck::Deck;
use drive::state::Drive;
use gate::fault::sense_of;
use gate::unit::{Pending, hold, sense_of_pending, told};

// The refusal's number or 0, beside 4 the table's first broken rule, the status, how many bytes were written, the blocks that a READ
// names, and the next state, which is a drive's where no other is named. (A number, and no Result: the theorem `Served` takes the state of every
// answer, refused too.)
#[derive(Clone, Copy)]
pub struct Outcome<S = Drive> {
    pub number: u8,
    pub rule: u8,
    pub status: u8,
    pub len: usize,
    pub start: usize,
    pub count: usize,
    pub state: S,
}

impl<S: Copy> Outcome<S> {
    // The same beside another state. (Field by field: `..self` can't change the type.)
    pub fn with_state<T>(self, next: T) -> Outcome<T>
        ensures { result ≡ with_state self next }
    {
        Outcome {
            number: self.number,
            rule: self.rule,
            status: self.status,
            len: self.len,
            start: self.start,
            count: self.count,
            state: next,
        }
    }
}

// A refusal: nothing done, the state as it was handed in.
pub fn refuse<S>(number: u8, rule: u8, state: S) -> Outcome<S>
    ensures { result ≡ refused number rule state }
{
    Outcome {
        number,
        rule,
        status: 0,
        len: 0,
        start: 0,
        count: 0,
        state,
    }
}

// CHECK CONDITION: the triple held as sense.
pub fn check(sense: Sense, unit: Unit, deck: Deck) -> Outcome
    ensures { result ≡ checked sense unit deck }
{
    Outcome {
        number: 0,
        rule: 0,
        status: 0x02,
        len: 0,
        start: 0,
        count: 0,
        state: Drive {
            unit: hold(unit, sense),
            deck,
        },
    }
}

// GOOD: what was written, the blocks that a READ names, and the state after it.
pub fn good(len: usize, start: usize, count: usize, unit: Unit, deck: Deck) -> Outcome
    ensures { result ≡ granted len start count unit deck }
{
    Outcome {
        number: 0,
        rule: 0,
        status: 0x00,
        len,
        start,
        count,
        state: Drive { unit, deck },
    }
}

// A command's end: CHECK CONDITION over the unit u, or GOOD over the unit v, attending to a loading.
pub fn finish(u: Unit, v: Unit, deck: Deck, done: Done) -> Outcome
    ensures { result ≡ finished u v deck done }
{
    match done {
        Err(f) => check(sense_of(f), u, deck),
        Ok(w) => good(w.len, w.start, w.count, v.attend(w.loading), w.next),
    }
}

// A telling: CHECK CONDITION with the attention's triple, and it stops being pending.
pub fn tell(a: Option<Pending>, unit: Unit, deck: Deck) -> Outcome
    ensures { result ≡ checked (attention_sense a) (told a unit) deck }
{
    check(sense_of_pending(a), told(unit, a), deck)
}
