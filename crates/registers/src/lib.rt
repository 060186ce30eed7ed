// The registers around the target: each access of the host is met by the task file, and the packet that it completes by the drive. Only the
// interrupt routine holds a reference to the record; all that it means is the by-value `step`.
#![tactic(auto)]

pub mod board;

ghost use Rattle.std.specs.Prelude.{◌≡◌, ◌<◌};
ghost use Rattle.table.specs.Layout.{bound};
ghost use Rattle.taskfile.specs.Host.{access_of};
ghost use Rattle.registers.specs.Registers.{asks, plain, Performed, gives, step_of, memory_of};

use drive::state::Drive;
use table::layout::BOUND;
use target::packet::{SHORT_MEMORY, packet};
use taskfile::host::{access_of, answered, turn_of};
use taskfile::{Due, TaskFile};

// What is handed back: the refusal's number or 0, beside 4 the table's first broken rule, the byte read, the blocks that a READ names at
// the call that completes it, and the next state. (C interface: C reads the number.)
#[repr(C)]
#[derive(Clone, Copy)]
pub struct Answer {
    pub number: u8,
    pub rule: u8,
    pub byte: u8,
    pub start: usize,
    pub count: usize,
    pub state: Drive,
}

// The record after an access, and what is handed back.
#[repr(C)]
#[derive(Clone, Copy)]
pub struct Stepped {
    pub file: TaskFile,
    pub answer: Answer,
}

// The refusal that only the registers give. (A number, which C reads.)
pub const OUT_OF_TURN: u8 = 15;

// A number, a byte and the state.
fn plain(number: u8, byte: u8, state: Drive) -> Answer
    ensures { result ≡ plain number byte state }
{
    Answer {
        number,
        rule: 0,
        byte,
        start: 0,
        count: 0,
        state,
    }
}

// The target performs the record's packet with that list.
fn perform(f: TaskFile, list: &[u8], d: Drive, table: &[u8], mem: &mut [u8]) -> Stepped
    ensures { Performed (asks f list.now d table.now mem.old) f mem.old result mem.new }
{
    let p = f.packet;
    let o = packet(d, &p, table, list, mem);
    let state = o.state;
    Stepped {
        file: answered(f, o.status, o.len),
        answer: Answer {
            number: o.number,
            rule: o.rule,
            byte: 0,
            start: o.start,
            count: o.count,
            state,
        },
    }
}

// The same with the list that the record has.
fn perform_listed(f: TaskFile, d: Drive, table: &[u8], mem: &mut [u8]) -> Stepped
    ensures { Performed (asks f f.list d table.now mem.old) f mem.old result mem.new }
{
    let list = f.list;
    perform(f, &list, d, table, mem)
}

// The next byte of the answer, out of the memory lent now; the record becomes next.
fn give(f: TaskFile, next: TaskFile, d: Drive, mem: &[u8]) -> Stepped
    requires { f.at < bound }
    ensures { result ≡ gives f next d mem.now }
{
    if mem.len() < BOUND {
        return Stepped {
            file: f,
            answer: plain(SHORT_MEMORY, 0, d),
        };
    }
    let at = f.at;
    Stepped {
        file: next,
        answer: plain(0, mem[at], d),
    }
}

// An access of the host, by value. (The parameters side by side, as C hands them in: C interface.)
fn step(
    file: TaskFile,
    access: u8,
    value: u8,
    state: Drive,
    table: &[u8],
    mem: &mut [u8],
) -> Stepped
    ensures { (result ≡ step_of file (access_of access) value state table.now mem.old) × (mem.new ≡ memory_of file (access_of access) value state table.now mem.old) }
{
    let t = turn_of(file, access_of(access), value);
    let next = t.file;
    let due = t.due;
    match due {
        Due::Refused => Stepped {
            file: next,
            answer: plain(OUT_OF_TURN, 0, state),
        },
        Due::Held => Stepped {
            file: next,
            answer: plain(0, 0, state),
        },
        Due::Performs => perform(next, &[], state, table, mem),
        Due::PerformsListed => perform_listed(next, state, table, mem),
        Due::Gives => give(file, next, state, mem),
        Due::Resets => Stepped {
            file: next,
            answer: plain(0, 0, state.power_on()),
        },
    }
}

// The interrupt routine: it is lent the one register record, and changes it where it stands.
pub fn vosklubec_interrupt(
    file: &mut TaskFile,
    access: u8,
    value: u8,
    state: Drive,
    table: &[u8],
    mem: &mut [u8],
) -> Answer
    ensures { (result ≡ (step_of file.old (access_of access) value state table.now mem.old).answer) × (file.new ≡ (step_of file.old (access_of access) value state table.now mem.old).file) × (mem.new ≡ memory_of file.old (access_of access) value state table.now mem.old) }
{
    let s = step(*file, access, value, state, table, mem);
    *file = s.file;
    s.answer
}

// The same where the record goes in and comes back by value: its callers hold no reference to it.
pub fn interrupt_on(
    file: TaskFile,
    access: u8,
    value: u8,
    state: Drive,
    table: &[u8],
    mem: &mut [u8],
) -> Stepped
    ensures { (result ≡ step_of file (access_of access) value state table.now mem.old) × (mem.new ≡ memory_of file (access_of access) value state table.now mem.old) }
{
    let mut r = file;
    let answer = vosklubec_interrupt(&mut r, access, value, state, table, mem);
    Stepped { file: r, answer }
}
