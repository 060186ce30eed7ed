// What each kind of record does with the changer, whose slots are kept as a byte each: 80h present, 01h changed.
use crate::bench::{Bad, Bench, SLOTS};
use crate::line::{put_changer, put_stood};
use changer::{Changer, Slot, packet_on};
use ground::number::word32;

// Every byte is a slot's: no other bit than 80h and 01h.
fn are_slots(body: &[u8]) -> bool {
    body.iter().all(|b| *b % 128 <= 1)
}

// The slots of their bytes; behind them empty ones.
fn slots_of(bytes: &[u8]) -> [Slot; SLOTS] {
    let none = Slot {
        present: false,
        changed: false,
    };
    let mut all = [none; SLOTS];
    for (slot, b) in all.iter_mut().zip(bytes) {
        *slot = Slot {
            present: *b >= 128,
            changed: *b % 2 == 1,
        };
    }
    all
}

// The bytes become those of the slots.
fn put_bytes(all: [Slot; SLOTS], bytes: &mut [u8]) {
    for (b, slot) in bytes.iter_mut().zip(&all) {
        *b = slot.flags();
    }
}

impl Bench {
    // Kind 15: the slots lent from now on.
    pub(crate) fn set_slots(&mut self, body: &[u8]) -> Result<usize, Bad> {
        if body.len() <= SLOTS && are_slots(body) {
            self.slots.lay(body);
            return Ok(0);
        }
        Err(Bad)
    }

    // The changer that is kept.
    fn changer(&self) -> Changer {
        Changer {
            drive: self.drive,
            home: self.home,
        }
    }

    // That one is kept.
    fn keep(&mut self, c: Changer) {
        self.drive = c.drive;
        self.home = c.home;
    }

    // A call on the changer other than a packet was answered.
    fn stood(&mut self, letter: u8, number: u8, c: Changer, line: &mut [u8]) -> usize {
        self.keep(c);
        put_stood(letter, number, c, self.slots.shown(), line)
    }

    // Kind 17: power-on by default; kind 18: its second form. Neither is ever refused.
    pub(crate) fn call_power(
        &mut self,
        kind: u8,
        body: &[u8],
        line: &mut [u8],
    ) -> Result<usize, Bad> {
        if body.len() == 0 {
            let c = self.changer();
            if kind == 17 {
                return Ok(self.stood(b'O', 0, c.power_on(), line));
            }
            return Ok(self.stood(b'Q', 0, c.power_on_without_change(), line));
        }
        Err(Bad)
    }

    // Kind 20: a playing position moves on.
    pub(crate) fn call_outside(&mut self, body: &[u8], line: &mut [u8]) -> Result<usize, Bad> {
        if body.len() == 4 {
            let k = word32(body[0], body[1], body[2], body[3]);
            let m = self.changer().move_on(k);
            return Ok(self.stood(b'M', m.number, m.state, line));
        }
        Err(Bad)
    }

    // Kind 19: a packet to the changer, with the table, the list, the memory and the slots as they are lent.
    pub(crate) fn call_changer(&mut self, body: &[u8], line: &mut [u8]) -> Result<usize, Bad> {
        let c = self.changer();
        let lent = self.memory.part();
        let kept = self.slots.part();
        let x = packet_on(
            slots_of(kept),
            kept.len(),
            c,
            body,
            self.table.shown(),
            self.list.shown(),
            lent,
        );
        let o = x.outcome;
        let next = o.state;
        put_bytes(x.slots, kept);
        let len = put_changer(o.with_state(next.drive), next.home, kept, lent, line);
        self.keep(next);
        Ok(len)
    }
}
