// The task file: the registers of 004 around the target, and what a transfer needs, as one record. Here it is by value: which run it is in,
// and what becomes of it at each access of the host. What the target has to do with it is the `registers` room's.
#![tactic(auto)]

pub mod host;
pub mod run;

ghost use Rattle.std.specs.Prelude.{◌≡◌};
ghost use Rattle.taskfile.specs.TaskFile.{started};

// The registers in the order of their addresses: features, interrupt reason, byte count low and high, drive, the target's status. Then the
// packet and the list as far as they came in; the limit of the runs, the bytes of the transfer and how many of them went. (C interface: C holds it.)
#[repr(C)]
#[derive(Clone, Copy)]
pub struct TaskFile {
    pub features: u8,
    pub reason: u8,
    pub low: u8,
    pub high: u8,
    pub drive: u8,
    pub status: u8,
    pub packet: [u8; 12],
    pub list: [u8; 16],
    pub limit: usize,
    pub len: usize,
    pub at: usize,
}

// What a record is in: no run, or one of the packet, of the list, of the answer.
#[derive(Clone, Copy)]
pub enum Phase {
    Idle,
    PacketRun,
    ListRun,
    AnswerRun,
}

// What the host does: it writes a register (one that is not there is nowhere), reads data, or resets. (Nine kinds, and no Option: a write nowhere is an
// access too, which waits as any.)
#[derive(Clone, Copy)]
pub enum Access {
    Data,
    Features,
    CountLow,
    CountHigh,
    Drive,
    Command,
    Nowhere,
    Read,
    Reset,
}

// What is due at an access: a refusal, nothing more, the packet performed with no list or with the list, a byte of the answer, a power-on.
#[derive(Clone, Copy)]
pub enum Due {
    Refused,
    Held,
    Performs,
    PerformsListed,
    Gives,
    Resets,
}

// What is due, and the record after it.
#[derive(Clone, Copy)]
pub struct Turn {
    pub due: Due,
    pub file: TaskFile,
}

// The record at the start: no transfer, and the byte count as a reset puts it.
pub fn started() -> TaskFile
    ensures { result ≡ started }
{
    TaskFile {
        features: 0,
        reason: run::SHOWS_STATUS,
        low: run::SIGNATURE_LOW,
        high: run::SIGNATURE_HIGH,
        drive: 0,
        status: 0,
        packet: [0; 12],
        list: [0; 16],
        limit: 0,
        len: 0,
        at: 0,
    }
}
