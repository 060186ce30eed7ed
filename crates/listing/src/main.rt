// The listing program: meets a file of packets with a file that holds a disc table, and prints a line for each packet.
#![tactic(auto)]

mod line;

ghost use Rattle.std.specs.Prelude.{◌≡◌, true, [], ◌*◌, ◌≤◌, length};
ghost use Rattle.table.specs.Layout.{bound};
ghost use Rattle.outcome.specs.Outcome.{Answered};
ghost use Rattle.target.specs.Packet.{answer};
ghost use Rattle.listing.specs.Run.{loaded, state_after};

use attention::Unit;
use attention::sense::{NO_SENSE, sense_at};
use deck::{Deck, NO_EVENT};
use drive::state::Drive;
use input::{fail, is_given, load, say};
use line::put_line;
use outcome::Outcome;
use page::defaults;
use play::no_play;
use print::front::front;
use table::layout::BOUND;
use target::packet::packet;

// The bytes of a packet.
const PACKET: usize = 12;

// The most bytes of a packet file.
const MOST: usize = 49152;

// Writes to standard output, and answers whether that went well. Where not, a line on standard error says why.
fn write(rt: &HostRuntime, text: &[u8]) -> bool {
    match rt.write_all(text) {
        Ok(()) => true,
        Err(e) => {
            fail(rt, b"standard output", e);
            false
        }
    }
}

// The drive after the second form of power-on, tray closed and a disc in.
fn loaded() -> Drive
    ensures { result ≡ loaded }
{
    let unit = Unit {
        power: false,
        change: false,
        sense: sense_at(NO_SENSE),
    };
    let deck = Deck {
        tray_open: false,
        disc_in: true,
        lock: false,
        play: no_play(),
        page: defaults(),
        event: NO_EVENT,
    };
    Drive { unit, deck }.power_on_without_change()
}

// A packet met by the drive, with an empty parameter list.
fn met_by(d: Drive, p: &[u8], table: &[u8], mem: &mut [u8]) -> Outcome
    ensures { Answered (answer d p.now table.now [] (length mem.old)) mem.old result mem.new }
{
    packet(d, p, table, &[], mem)
}

// How many packets were met, the state after the last of them, and whether that was the file's last: not so where a line could not be
// written. It is there for the promise alone; a Result in place of `whole` is no plainer, since both its arms would hold `met` and `state`.
#[derive(Clone, Copy)]
struct Listed {
    met: usize,
    state: Drive,
    whole: bool,
}

// Meets the packets one after the other, each with the state that the one before left, and writes their lines.
fn list(rt: &HostRuntime, table: &[u8], packets: &[u8], mem: &mut [u8], line: &mut [u8]) -> Listed
    requires { (length packets.now ≤ 49152) × (length mem.old ≡ bound) }
    ensures { (result.state ≡ state_after table.now packets.now result.met) × (result.whole ≡ true → length packets.now ≤ 12 * result.met) }
{
    let mut state = loaded();
    let mut met = 0;
    for p in packets.chunks(PACKET) {
        let o = met_by(state, p, table, mem);
        met += 1;
        let k = put_line(met, o, front(mem, o.len), line);
        state = o.state;
        if !write(rt, front(line, k)) {
            return Listed {
                met,
                state,
                whole: false,
            };
        }
    }
    Listed {
        met,
        state,
        whole: true,
    }
}

fn main(rt: HostRuntime) {
    if !is_given(&rt, 2) || is_given(&rt, 3) {
        say(&rt, b"usage: listing TABLE PACKETS\n");
        return;
    }
    let mut table = [0u8; BOUND + 1];
    let Some(t) = load(&rt, 1, &mut table) else {
        return;
    };
    let mut packets = [0u8; MOST + 1];
    let Some(p) = load(&rt, 2, &mut packets) else {
        return;
    };
    if MOST < p {
        write(&rt, b"too long\n");
        return;
    }
    if !write(&rt, b"n st key asc ascq len data start count\n") {
        return;
    }
    let mut mem = [0u8; BOUND];
    let mut line = [0u8; 14000];
    list(
        &rt,
        front(&table, t),
        front(&packets, p),
        &mut mem,
        &mut line,
    );
}
