// What is kept from record to record, and what each kind of record does with it (those of the changer in `magazine`, of the registers in `host`).
ghost use Rattle.std.specs.Prelude.{◌≡◌, length};

use crate::given::{TOTALS, totals_of};
use crate::line::{
    put_address, put_counted, put_moved, put_msf, put_packet, put_part, put_written,
};
use address::{OutOfRange, to_block, to_msf};
use attention::Unit;
use attention::sense::Sense;
use cue::write::write_table;
use deck::Deck;
use disc::part::{session_part, session_refusal};
use drive::state::{Drive, Moved};
use ground::memory::copy_front;
use ground::number::{word16, word32};
use page::Page;
use play::Play;
use print::front::front;
use shelf::stream::count_all;
use target::packet::packet;
use taskfile::{TaskFile, started};

// The most bytes of a record's body, of a table, of a parameter list and of a response memory.
pub const BODY: usize = 8191;

// The most slots.
pub const SLOTS: usize = 255;

// A record that is none: the run ends with a line that says so.
#[derive(Clone, Copy, Debug, PartialEq, Eq)]
pub struct Bad;

// Memory that calls are lent: its first `len` bytes. (No heap: an array, and how much of it is lent.)
#[derive(Clone, Copy)]
pub struct Lent<const N: usize> {
    bytes: [u8; N],
    len: usize,
}

impl<const N: usize> Lent<N> {
    // None of it.
    fn none() -> Lent<N> {
        Lent {
            bytes: [0; N],
            len: 0,
        }
    }

    // What is lent.
    pub(crate) fn shown(&self) -> &[u8] {
        front(&self.bytes, self.len)
    }

    // The same, to be written.
    pub(crate) fn part(&mut self) -> &mut [u8] {
        let n = self.len.min(N);
        &mut self.bytes[..n]
    }

    // These bytes are lent from now on.
    pub(crate) fn lay(&mut self, body: &[u8]) {
        self.len = copy_front(body, &mut self.bytes);
    }

    // n bytes are lent from now on, every one x; there may be no room for them.
    fn fill(&mut self, n: usize, x: u8) -> Result<(), Bad> {
        if N < n {
            return Err(Bad);
        }
        self.bytes[..n].fill(x);
        self.len = n;
        Ok(())
    }
}

// The drive, the register record before it, the home of the disc in it, and the table, the parameter list, the response memory and the slots that
// are lent.
#[derive(Clone, Copy)]
pub struct Bench {
    pub drive: Drive,
    pub file: TaskFile,
    pub home: u8,
    pub table: Lent<BODY>,
    pub list: Lent<BODY>,
    pub memory: Lent<BODY>,
    pub slots: Lent<SLOTS>,
}

// Everything zero, no table, no list, no memory and no slots.
pub(crate) fn empty() -> Bench {
    let sense = Sense {
        key: 0,
        asc: 0,
        ascq: 0,
    };
    let unit = Unit {
        power: false,
        change: false,
        sense,
    };
    let play = Play {
        status: 0,
        position: 0,
        end: 0,
    };
    let page = Page {
        recovery: 0,
        retry: 0,
    };
    let deck = Deck {
        tray_open: false,
        disc_in: false,
        lock: false,
        play,
        page,
        event: 0,
    };
    Bench {
        drive: Drive { unit, deck },
        file: started(),
        home: 0,
        table: Lent::none(),
        list: Lent::none(),
        memory: Lent::none(),
        slots: Lent::none(),
    }
}

// The state that a record gives.
fn state_of(body: &[u8]) -> Drive
    requires { length body.now ≡ 20 }
{
    let play = Play {
        status: body[8],
        position: word32(body[9], body[10], body[11], body[12]),
        end: word32(body[13], body[14], body[15], body[16]),
    };
    let page = Page {
        recovery: body[17],
        retry: body[18],
    };
    let deck = Deck {
        tray_open: body[0] == 1,
        disc_in: body[1] == 1,
        lock: body[2] == 1,
        play,
        page,
        event: body[19],
    };
    let sense = Sense {
        key: body[5],
        asc: body[6],
        ascq: body[7],
    };
    let unit = Unit {
        power: body[3] == 1,
        change: body[4] == 1,
        sense,
    };
    Drive { unit, deck }
}

// The first five bytes are flags, 0 or 1.
fn are_flags(body: &[u8]) -> bool {
    body.iter().take(5).all(|b| *b <= 1)
}

// Kind 8: an address to M:S:F.
fn call_msf(body: &[u8], line: &mut [u8]) -> Result<usize, Bad> {
    if body.len() == 4 {
        return match to_msf(word32(body[0], body[1], body[2], body[3])) {
            Ok(m) => Ok(put_msf(0, m.minute, m.second, m.frame, line)),
            Err(OutOfRange) => Ok(put_msf(address::REFUSED, 0, 0, 0, line)),
        };
    }
    Err(Bad)
}

// Kind 9: an M:S:F to its address.
fn call_block(body: &[u8], line: &mut [u8]) -> Result<usize, Bad> {
    if body.len() == 3 {
        return match to_block(body[0], body[1], body[2]) {
            Ok(a) => Ok(put_address(0, a, line)),
            Err(OutOfRange) => Ok(put_address(address::REFUSED, 0, line)),
        };
    }
    Err(Bad)
}

// Kind 24: a stream of tables, counted on top of the totals before it.
fn call_shelf(body: &[u8], line: &mut [u8]) -> Result<usize, Bad> {
    if body.len() < TOTALS {
        return Err(Bad);
    }
    let counted = count_all(totals_of(body), &body[TOTALS..]);
    Ok(put_counted(counted, line))
}

// Each kind hands back how many bytes its line has.
impl Bench {
    // Kind 0: the state.
    fn set_state(&mut self, body: &[u8]) -> Result<usize, Bad> {
        if body.len() == 20 && are_flags(body) {
            self.drive = state_of(body);
            return Ok(0);
        }
        Err(Bad)
    }

    // Kind 1: the table lent from now on.
    fn set_table(&mut self, body: &[u8]) -> Result<usize, Bad> {
        self.table.lay(body);
        Ok(0)
    }

    // Kind 13: the parameter list lent from now on.
    fn set_list(&mut self, body: &[u8]) -> Result<usize, Bad> {
        self.list.lay(body);
        Ok(0)
    }

    // Kind 16: the home of the disc in the drive.
    fn set_home(&mut self, body: &[u8]) -> Result<usize, Bad> {
        if body.len() == 1 {
            self.home = body[0];
            return Ok(0);
        }
        Err(Bad)
    }

    // Kind 2: the response memory from now on.
    fn set_memory(&mut self, body: &[u8]) -> Result<usize, Bad> {
        if body.len() == 3 {
            self.memory.fill(word16(body[0], body[1]), body[2])?;
            return Ok(0);
        }
        Err(Bad)
    }

    // A call on the drive other than a packet was answered.
    fn moved(&mut self, letter: u8, m: Moved, line: &mut [u8]) -> usize {
        self.drive = m.state;
        put_moved(letter, m.number, m.state, line)
    }

    // Power-on is never refused.
    fn powered(&mut self, letter: u8, state: Drive, line: &mut [u8]) -> usize {
        self.moved(letter, Moved { number: 0, state }, line)
    }

    // Kinds 3 to 6: power-on by default, button, laying, lifting; kind 11: the second form of power-on.
    fn call_drive(&mut self, kind: u8, body: &[u8], line: &mut [u8]) -> Result<usize, Bad> {
        if body.len() == 0 {
            let d = self.drive;
            return Ok(match kind {
                3 => self.powered(b'o', d.power_on(), line),
                4 => self.moved(b'b', d.button(), line),
                5 => self.moved(b'd', d.lay(), line),
                6 => self.moved(b'u', d.lift(), line),
                _ => self.powered(b'q', d.power_on_without_change(), line),
            });
        }
        Err(Bad)
    }

    // Kind 12: a playing position moves on.
    fn call_move(&mut self, body: &[u8], line: &mut [u8]) -> Result<usize, Bad> {
        if body.len() == 4 {
            let k = word32(body[0], body[1], body[2], body[3]);
            return Ok(self.moved(b'm', self.drive.move_on(k), line));
        }
        Err(Bad)
    }

    // Kind 7: a packet, with the table, the list and the memory as they are lent.
    fn call_packet(&mut self, body: &[u8], line: &mut [u8]) -> Result<usize, Bad> {
        let lent = self.memory.part();
        let o = packet(
            self.drive,
            body,
            self.table.shown(),
            self.list.shown(),
            lent,
        );
        self.drive = o.state;
        Ok(put_packet(o, lent, line))
    }

    // Kind 10: a session's part.
    fn call_part(&self, body: &[u8], line: &mut [u8]) -> Result<usize, Bad> {
        if body.len() == 1 {
            let k = body[0];
            let t = self.table.shown();
            return Ok(put_part(session_refusal(t, k), session_part(t, k), line));
        }
        Err(Bad)
    }

    // Kind 14: a cue sheet, turned into the memory as it is lent.
    fn call_sheet(&mut self, body: &[u8], line: &mut [u8]) -> Result<usize, Bad> {
        let lent = self.memory.part();
        let w = write_table(body, lent);
        Ok(put_written(w, lent, line))
    }

    // A record of the kind, met. (The kind is the record's byte, and its arm names the call: closures in a table would be no plainer.)
    pub(crate) fn meet(&mut self, kind: u8, body: &[u8], line: &mut [u8]) -> Result<usize, Bad> {
        match kind {
            0 => self.set_state(body),
            1 => self.set_table(body),
            2 => self.set_memory(body),
            3..=6 | 11 => self.call_drive(kind, body, line),
            7 => self.call_packet(body, line),
            8 => call_msf(body, line),
            9 => call_block(body, line),
            10 => self.call_part(body, line),
            12 => self.call_move(body, line),
            13 => self.set_list(body),
            14 => self.call_sheet(body, line),
            15 => self.set_slots(body),
            16 => self.set_home(body),
            17 | 18 => self.call_power(kind, body, line),
            19 => self.call_changer(body, line),
            20 => self.call_outside(body, line),
            21..=23 => self.call_host(kind, body, line),
            24 => call_shelf(body, line),
            _ => Err(Bad),
        }
    }
}
