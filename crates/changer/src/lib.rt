// The changer: a drive and up to 31 slots, whose records stand beside one another in memory that the caller lends. They are read where they
// stand, and what a packet comes to is written in two places.
#![tactic(auto)]

mod load;
mod meet;
mod slots;
mod status;

ghost use Rattle.std.specs.Prelude.{◌≤◌, ◌≡◌, length};
ghost use Rattle.changer.specs.Status.{flags_of};
ghost use Rattle.changer.specs.Moves.{Within, settled};
ghost use Rattle.changer.specs.Changer.{emptied, power_on, power_on_without_change, moves_on};
ghost use Rattle.changer.specs.ChangerPacket.{answer, Answered, AnsweredOn};

use crate::meet::meet;
use drive::state::Drive;
use outcome::Outcome;

// A slot record: disc present, disc changed.
#[derive(Clone, Copy, Default)]
pub struct Slot {
    pub present: bool,
    pub changed: bool,
}

impl Slot {
    // Its byte: present in bit 7, changed in bit 0.
    pub fn flags(self) -> u8
        ensures { result ≡ flags_of self }
    {
        match (self.present, self.changed) {
            (true, true) => 0x81,
            (true, false) => 0x80,
            (false, true) => 0x01,
            (false, false) => 0,
        }
    }
}

// The drive's state, and the home slot of the disc in the drive.
#[derive(Clone, Copy)]
pub struct Changer {
    pub drive: Drive,
    pub home: u8,
}

// The outside call's answer: the refusal's number or 0, and the next state. C interface: `Moved`, whose number this
// hands on, is laid out for C, and stays the drive's alone.
#[derive(Clone, Copy)]
pub struct MovedOn {
    pub number: u8,
    pub state: Changer,
}

// Two places among the slots and what goes there.
#[derive(Clone, Copy)]
pub struct Moves {
    pub a: usize,
    pub x: Slot,
    pub b: usize,
    pub y: Slot,
}

// What a packet comes to: what is handed back, and what becomes of the slots, if anything.
#[derive(Clone, Copy)]
pub struct Met {
    pub outcome: Outcome<Changer>,
    pub moves: Option<Moves>,
}

// What a packet comes to, and an array of slots after it.
#[derive(Clone, Copy)]
pub struct Lent {
    pub slots: [Slot; 255],
    pub outcome: Outcome<Changer>,
}

impl Changer {
    // Power-on by default: an empty closed drive, home 0.
    pub fn power_on(self) -> Changer
        ensures { result ≡ power_on self }
    {
        Changer {
            drive: emptied(self.drive).power_on(),
            home: 0,
        }
    }

    // The second form of power-on: the same. (The build definition names both forms.)
    pub fn power_on_without_change(self) -> Changer
        ensures { result ≡ power_on_without_change self }
    {
        Changer {
            drive: emptied(self.drive).power_on_without_change(),
            home: 0,
        }
    }

    // A playing position moves on by k blocks, as on the drive.
    pub fn move_on(self, k: usize) -> MovedOn
        ensures { result ≡ moves_on k self }
    {
        let m = self.drive.move_on(k);
        MovedOn {
            number: m.number,
            state: Changer {
                drive: m.state,
                ..self
            },
        }
    }
}

// The drive with its tray closed and no disc in it.
fn emptied(d: Drive) -> Drive
    ensures { result ≡ emptied d }
{
    let shut = d.deck.with_disc(false).closing();
    Drive {
        deck: shut.deck,
        ..d
    }
}

// Two places change, or none: the others stay as they were.
fn settle(slots: &mut [Slot], m: Option<Moves>)
    requires { Within m (length slots.old) }
    ensures { slots.new ≡ settled slots.old m }
{
    if let Some(to) = m {
        slots[to.a] = to.x;
        slots[to.b] = to.y;
    }
}

// A packet met by the changer, with the slots, a disc table, a parameter list and a response memory: the refusals 1, 2, 3, 11, 4 in order,
// then the steps. (All side by side, as in `target`.)
pub fn packet(
    slots: &mut [Slot],
    c: Changer,
    p: &[u8],
    table: &[u8],
    list: &[u8],
    mem: &mut [u8],
) -> Outcome<Changer>
    ensures { Answered (answer c slots.old p.now table.now list.now (length mem.old)) mem.old result mem.new slots.new }
{
    let d = meet(slots, c, p, table, list, mem);
    settle(slots, d.moves);
    d.outcome
}

// The same where the slots are the first k of an array.
fn packet_first(
    slots: [Slot; 255],
    k: usize,
    c: Changer,
    p: &[u8],
    table: &[u8],
    list: &[u8],
    mem: &mut [u8],
) -> Lent
    requires { k ≤ 255 }
    ensures { AnsweredOn c slots k p.now table.now list.now mem.old result mem.new }
{
    let mut all = slots;
    let o = packet(&mut all[..k], c, p, table, list, mem);
    Lent {
        slots: all,
        outcome: o,
    }
}

// The same where the slots are the first n of an array, or all of it: its callers hold no reference to a slot.
pub fn packet_on(
    slots: [Slot; 255],
    n: usize,
    c: Changer,
    p: &[u8],
    table: &[u8],
    list: &[u8],
    mem: &mut [u8],
) -> Lent
    ensures { AnsweredOn c slots n p.now table.now list.now mem.old result mem.new }
{
    let k = n.min(255);
    packet_first(slots, k, c, p, table, list, mem)
}
