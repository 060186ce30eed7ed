// The rest of the edge that `registers_c` hands to C: the record at the start, and the drive's own calls, each by value. (C interface: a function
// for each name that C calls.)
ghost use Rattle.std.specs.Prelude.{◌≡◌};
ghost use Rattle.taskfile.specs.TaskFile.{started};
ghost use Rattle.drive.specs.State.{power_on, power_on_without_change, button, lay, lift, move_on};

use drive::state::{Drive, Moved};
use taskfile::{TaskFile, started};

pub fn vosklubec_started() -> TaskFile
    ensures { result ≡ started }
{
    started()
}

pub fn vosklubec_power_on(state: Drive) -> Drive
    ensures { result ≡ power_on state }
{
    state.power_on()
}

pub fn vosklubec_power_on_without_change(state: Drive) -> Drive
    ensures { result ≡ power_on_without_change state }
{
    state.power_on_without_change()
}

pub fn vosklubec_button(state: Drive) -> Moved
    ensures { result ≡ button state }
{
    state.button()
}

pub fn vosklubec_lay(state: Drive) -> Moved
    ensures { result ≡ lay state }
{
    state.lay()
}

pub fn vosklubec_lift(state: Drive) -> Moved
    ensures { result ≡ lift state }
{
    state.lift()
}

pub fn vosklubec_move_on(state: Drive, k: usize) -> Moved
    ensures { result ≡ move_on k state }
{
    state.move_on(k)
}
