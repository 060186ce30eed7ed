// What each access of the host makes of the record.
ghost use Rattle.std.specs.Prelude.{◌≡◌, ◌<◌};
ghost use Rattle.taskfile.specs.Run.{phase_of};
ghost use Rattle.taskfile.specs.TaskFile.{placed, holding, ended, reset};
ghost use Rattle.taskfile.specs.Host.{access_of, begun, gone, answered, packet_end, packet_byte, list_byte, answer_byte, refused_turn, held, data_turn, read_turn, write_turn, command_turn, written, turn_of};

use crate::run::{count_of, counting, into_run, limit_of, phase_of, takes_list};
use crate::{Access, Due, Phase, TaskFile, Turn, run};

// The numbers of the accesses: the register's address, and two above them. (C interface: C hands them in.)
pub const DATA: u8 = 0;

pub const FEATURES: u8 = 1;

pub const COUNT_LOW: u8 = 4;

pub const COUNT_HIGH: u8 = 5;

pub const DRIVE: u8 = 6;

pub const COMMAND: u8 = 7;

pub const READ: u8 = 8;

pub const RESET: u8 = 9;

// PACKET, the one command.
const PACKET_COMMAND: u8 = 0xA0;

// The access of a number. A function, and no From<u8>: the promises of the interrupt routine name it.
pub fn access_of(n: u8) -> Access
    ensures { result ≡ access_of n }
{
    match n {
        DATA => Access::Data,
        FEATURES => Access::Features,
        COUNT_LOW => Access::CountLow,
        COUNT_HIGH => Access::CountHigh,
        DRIVE => Access::Drive,
        COMMAND => Access::Command,
        READ => Access::Read,
        RESET => Access::Reset,
        _ => Access::Nowhere,
    }
}

// The record with that reason and that transfer.
fn placed(mut f: TaskFile, reason: u8, limit: usize, len: usize, at: usize) -> TaskFile
    ensures { result ≡ placed f reason limit len at }
{
    f.reason = reason;
    f.limit = limit;
    f.len = len;
    f.at = at;
    f
}

// The record with those registers.
fn holding(mut f: TaskFile, features: u8, low: u8, high: u8, drive: u8, status: u8) -> TaskFile
    ensures { result ≡ holding f features low high drive status }
{
    f.features = features;
    f.low = low;
    f.high = high;
    f.drive = drive;
    f.status = status;
    f
}

// Status ends a transfer.
fn ended(f: TaskFile) -> TaskFile
    ensures { result ≡ ended f }
{
    placed(f, run::SHOWS_STATUS, 0, 0, 0)
}

// Reset ends any transfer.
fn reset(f: TaskFile) -> TaskFile
    ensures { result ≡ reset f }
{
    ended(holding(
        f,
        f.features,
        run::SIGNATURE_LOW,
        run::SIGNATURE_HIGH,
        f.drive,
        0,
    ))
}

// The first run of n bytes begins.
fn begun(f: TaskFile, reason: u8, n: usize) -> TaskFile
    ensures { result ≡ begun f reason n }
{
    let limit = f.limit;
    counting(placed(f, reason, limit, n, 0), limit.min(n))
}

// A byte went, and more remain: where its run is over the next one begins. (That more remain is asked, and not the record's: C lends any record.)
fn gone(f: TaskFile) -> TaskFile
    requires { f.at < f.len }
    ensures { result ≡ gone f }
{
    let at = f.at + 1;
    let limit = f.limit;
    let next = placed(f, f.reason, limit, f.len, at);
    if into_run(at, limit) == 0 {
        return counting(next, limit.min(f.len - at));
    }
    next
}

// The target has answered with that status and n bytes: the first run begins, or status ends the transfer.
pub fn answered(f: TaskFile, status: u8, n: usize) -> TaskFile
    ensures { result ≡ answered f status n }
{
    let next = holding(f, f.features, f.low, f.high, f.drive, status);
    if n == 0 {
        return ended(next);
    }
    begun(next, run::GIVES_ANSWER, n)
}

// The packet's end: 55h asking for 16 bytes takes its list, any other is performed.
fn packet_end(f: TaskFile) -> Turn
    ensures { result ≡ packet_end f }
{
    let p = f.packet;
    if takes_list(p) {
        return Turn {
            due: Due::Held,
            file: begun(f, run::TAKES_LIST, run::LIST),
        };
    }
    Turn {
        due: Due::Performs,
        file: f,
    }
}

// A byte of the packet; behind the last the byte count is taken as the limit.
fn packet_byte(f: TaskFile, v: u8) -> Turn
    requires { f.at < 12 }
    ensures { result ≡ packet_byte f v }
{
    let at = f.at;
    let mut next = f;
    next.packet[at] = v;
    if at + 1 == run::PACKET {
        next.limit = limit_of(count_of(f));
        return packet_end(next);
    }
    next.at = at + 1;
    Turn {
        due: Due::Held,
        file: next,
    }
}

// A byte of the list; behind the last the packet is performed.
fn list_byte(f: TaskFile, v: u8) -> Turn
    requires { (f.at < 16) × (f.len ≡ 16) }
    ensures { result ≡ list_byte f v }
{
    let at = f.at;
    let mut next = f;
    next.list[at] = v;
    if at + 1 == run::LIST {
        return Turn {
            due: Due::PerformsListed,
            file: next,
        };
    }
    Turn {
        due: Due::Held,
        file: gone(next),
    }
}

// A byte of the answer; behind the last status ends the transfer.
fn answer_byte(f: TaskFile) -> Turn
    requires { f.at < f.len }
    ensures { result ≡ answer_byte f }
{
    if f.at + 1 == f.len {
        return Turn {
            due: Due::Gives,
            file: ended(f),
        };
    }
    Turn {
        due: Due::Gives,
        file: gone(f),
    }
}

// Refused: the record as it was.
fn refused(f: TaskFile) -> Turn
    ensures { result ≡ refused_turn f }
{
    Turn {
        due: Due::Refused,
        file: f,
    }
}

// A data write goes to the packet or the list.
fn data_turn(f: TaskFile, v: u8) -> Turn
    ensures { result ≡ data_turn (phase_of f) f v }
{
    match phase_of(f) {
        Phase::PacketRun => packet_byte(f, v),
        Phase::ListRun => list_byte(f, v),
        Phase::Idle | Phase::AnswerRun => refused(f),
    }
}

// A data read comes out of the answer.
fn read_turn(f: TaskFile) -> Turn
    ensures { result ≡ read_turn (phase_of f) f }
{
    match phase_of(f) {
        Phase::AnswerRun => answer_byte(f),
        Phase::Idle | Phase::PacketRun | Phase::ListRun => refused(f),
    }
}

// Any other write waits until status has ended the transfer.
fn write_turn(f: TaskFile, turn: Turn) -> Turn
    ensures { result ≡ write_turn (phase_of f) f turn }
{
    match phase_of(f) {
        Phase::Idle => turn,
        Phase::PacketRun | Phase::ListRun | Phase::AnswerRun => refused(f),
    }
}

// A write that is held.
fn held_turn(f: TaskFile, next: TaskFile) -> Turn
    ensures { result ≡ write_turn (phase_of f) f (held next) }
{
    write_turn(
        f,
        Turn {
            due: Due::Held,
            file: next,
        },
    )
}

// PACKET asks for 12 bytes; any other command is refused.
fn command_turn(f: TaskFile, v: u8) -> Turn
    ensures { result ≡ write_turn (phase_of f) f (command_turn f v) }
{
    if v == PACKET_COMMAND {
        return held_turn(f, placed(f, run::TAKES_PACKET, run::PACKET, run::PACKET, 0));
    }
    refused(f)
}

// The record with a byte written to one of the registers that are held.
fn written(f: TaskFile, a: Access, v: u8) -> TaskFile
    ensures { result ≡ written f a v }
{
    match a {
        Access::Features => holding(f, v, f.low, f.high, f.drive, f.status),
        Access::CountLow => holding(f, f.features, v, f.high, f.drive, f.status),
        Access::CountHigh => holding(f, f.features, f.low, v, f.drive, f.status),
        Access::Drive => holding(f, f.features, f.low, f.high, v, f.status),
        Access::Data | Access::Command | Access::Nowhere | Access::Read | Access::Reset => f,
    }
}

// What an access comes to.
#[tactic(auto, unfolding(crate::specs::Host::turn_of))]
pub fn turn_of(f: TaskFile, a: Access, v: u8) -> Turn
    ensures { result ≡ turn_of f a v }
{
    match a {
        Access::Data => data_turn(f, v),
        Access::Command => command_turn(f, v),
        Access::Read => read_turn(f),
        Access::Reset => Turn {
            due: Due::Resets,
            file: reset(f),
        },
        Access::Features | Access::CountLow | Access::CountHigh | Access::Drive | Access::Nowhere =>
            held_turn(f, written(f, a, v)),
    }
}
