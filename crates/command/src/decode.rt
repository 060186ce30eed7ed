// Operation code to command, how it meets a pending attention, and whether it needs a disc.
ghost use Rattle.std.specs.Prelude.{◌≡◌};
ghost use Rattle.command.specs.Command.{decode, kind_of, starting, needing};

use crate::class::class_at;
use crate::field::bit;

// The commands, in the order of the definition's list of packets. Above each stands the name that docs/APPENDIX-A.md prints.
#[derive(Clone, Copy)]
pub enum Command {
    // TEST UNIT READY
    TestUnitReady,
    // REQUEST SENSE
    RequestSense,
    // INQUIRY
    Inquiry,
    // START/STOP UNIT
    StartStop,
    // PREVENT/ALLOW
    Prevent,
    // READ CAPACITY
    ReadCapacity,
    // READ(10)
    Read10,
    // SEEK(10)
    Seek,
    // READ TOC
    ReadToc,
    // READ(12)
    Read12,
    // PLAY AUDIO(10)
    PlayAudio,
    // PAUSE/RESUME
    PauseResume,
    // READ SUB-CHANNEL
    ReadSubChannel,
    // MODE SENSE(10)
    ModeSense,
    // MODE SELECT(10)
    ModeSelect,
    // GET EVENT STATUS NOTIFICATION
    GetEvent,
    // unknown
    Unknown,
}

// The command of an operation code, by its row of the table.
pub fn decode(code: u8) -> Command
    ensures { result ≡ decode code }
{
    class_at(code)
}

// How a packet meets a pending attention.
#[derive(Clone, Copy)]
pub enum Kind {
    // REQUEST SENSE.
    Asks,
    // INQUIRY and GET EVENT STATUS NOTIFICATION: performed even with an attention pending.
    Passes,
    // Any other: a pending attention is told first.
    Gates,
}

// (An arm for each command, as in the definition: docs/APPENDIX-A.md is made from these arms and from those of `needs_disc`.)
pub fn kind_of(c: Command) -> Kind
    ensures { result ≡ kind_of c }
{
    match c {
        Command::TestUnitReady => Kind::Gates,
        Command::RequestSense => Kind::Asks,
        Command::Inquiry => Kind::Passes,
        Command::StartStop => Kind::Gates,
        Command::Prevent => Kind::Gates,
        Command::ReadCapacity => Kind::Gates,
        Command::Read10 => Kind::Gates,
        Command::Seek => Kind::Gates,
        Command::ReadToc => Kind::Gates,
        Command::Read12 => Kind::Gates,
        Command::PlayAudio => Kind::Gates,
        Command::PauseResume => Kind::Gates,
        Command::ReadSubChannel => Kind::Gates,
        Command::ModeSense => Kind::Gates,
        Command::ModeSelect => Kind::Gates,
        Command::GetEvent => Kind::Passes,
        Command::Unknown => Kind::Gates,
    }
}

// LoEj 0 and Start 1.
fn starting(b: u8) -> bool
    ensures { result ≡ starting b }
{
    !bit::<1>(b) && bit::<0>(b)
}

// The command needs a disc; b is the packet's byte 4.
pub fn needs_disc(c: Command, b: u8) -> bool
    ensures { result ≡ needing c b }
{
    match c {
        Command::TestUnitReady => true,
        Command::RequestSense => false,
        Command::Inquiry => false,
        Command::StartStop => starting(b),
        Command::Prevent => false,
        Command::ReadCapacity => true,
        Command::Read10 => true,
        Command::Seek => true,
        Command::ReadToc => true,
        Command::Read12 => true,
        Command::PlayAudio => true,
        Command::PauseResume => true,
        Command::ReadSubChannel => true,
        Command::ModeSense => false,
        Command::ModeSelect => false,
        Command::GetEvent => false,
        Command::Unknown => false,
    }
}
