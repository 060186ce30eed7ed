// The registers for C: an export for each function that C calls, which hands on what that function of `registers` answers, with its promise.
// (C interface: a library exports nothing, so each name stands here once more.)
#![tactic(auto)]

ghost use Rattle.std.specs.Prelude.{◌≡◌};
ghost use Rattle.taskfile.specs.TaskFile.{started};
ghost use Rattle.taskfile.specs.Host.{access_of};
ghost use Rattle.drive.specs.State.{power_on, power_on_without_change, button, lay, lift, move_on};
ghost use Rattle.registers.specs.Registers.{step_of, memory_of};

use drive::state::{Drive, Moved};
use registers::Answer;
use taskfile::TaskFile;

#[unsafe(no_mangle)]
pub extern "C" fn vosklubec_started() -> TaskFile
    ensures { result ≡ started }
{
    registers::board::vosklubec_started()
}

#[unsafe(no_mangle)]
pub extern "C" fn vosklubec_power_on(state: Drive) -> Drive
    ensures { result ≡ power_on state }
{
    registers::board::vosklubec_power_on(state)
}

#[unsafe(no_mangle)]
pub extern "C" fn vosklubec_power_on_without_change(state: Drive) -> Drive
    ensures { result ≡ power_on_without_change state }
{
    registers::board::vosklubec_power_on_without_change(state)
}

#[unsafe(no_mangle)]
pub extern "C" fn vosklubec_button(state: Drive) -> Moved
    ensures { result ≡ button state }
{
    registers::board::vosklubec_button(state)
}

#[unsafe(no_mangle)]
pub extern "C" fn vosklubec_lay(state: Drive) -> Moved
    ensures { result ≡ lay state }
{
    registers::board::vosklubec_lay(state)
}

#[unsafe(no_mangle)]
pub extern "C" fn vosklubec_lift(state: Drive) -> Moved
    ensures { result ≡ lift state }
{
    registers::board::vosklubec_lift(state)
}

#[unsafe(no_mangle)]
pub extern "C" fn vosklubec_move_on(state: Drive, k: usize) -> Moved
    ensures { result ≡ move_on k state }
{
    registers::board::vosklubec_move_on(state, k)
}

// The interrupt routine: it is lent the one register record, and changes it where it stands.
#[unsafe(no_mangle)]
pub extern "C" fn vosklubec_interrupt(
    file: &mut TaskFile,
    access: u8,
    value: u8,
    state: Drive,
    table: &[u8],
    mem: &mut [u8],
) -> Answer
    ensures { (result ≡ (step_of file.old (access_of access) value state table.now mem.old).answer) × (file.new ≡ (step_of file.old (access_of access) value state table.now mem.old).file) × (mem.new ≡ memory_of file.old (access_of access) value state table.now mem.old) }
{
    registers::vosklubec_interrupt(file, access, value, state, table, mem)
}
