// The lines that an access of the registers prints. (What a line prints and where it goes are parameters: a struct of them would be no plainer.)
ghost use Rattle.std.specs.Prelude.{◌≡◌};
ghost use Rattle.ground.specs.Memory.{Laid};
ghost use Rattle.taskfile.specs.Run.{phase_of};
ghost use Rattle.replay.specs.Task.{phase_letter, held_text, file_text, stand_text, blocks_text, last_text, given_text, reset_line, wrote_line, read_line};

use crate::line::{next_state, next_sum, put_call, put_ruled};
use drive::state::Drive;
use ground::memory::copy_front;
use print::decimal::next_decimal;
use print::hex::{next_hex, next_shown, next_three};
use registers::Answer;
use taskfile::run::{left_of, phase_of};
use taskfile::{Phase, TaskFile};

// The letter of the run that a record is in.
fn phase_letter(s: Phase) -> u8
    ensures { result ≡ phase_letter s }
{
    match s {
        Phase::Idle => b'I',
        Phase::PacketRun => b'P',
        Phase::ListRun => b'L',
        Phase::AnswerRun => b'A',
    }
}

// The reason, the byte count, features, drive and status.
fn next_held(f: TaskFile, out: &mut [u8]) -> usize
    ensures { Laid out.old (held_text f) result out.new }
{
    let count = [f.high, f.low];
    let mut at = next_hex(f.reason, out);
    at += next_shown(&count, &mut out[at..]);
    at += next_three(f.features, f.drive, f.status, &mut out[at..]);
    at
}

// The record: its run's letter, what it holds, and the bytes left of the run.
fn next_file(f: TaskFile, out: &mut [u8]) -> usize
    ensures { Laid out.old (file_text f) result out.new }
{
    let letter = [b' ', phase_letter(phase_of(f))];
    let mut at = copy_front(&letter, out);
    at += next_held(f, &mut out[at..]);
    at += next_decimal(left_of(f), &mut out[at..]);
    at
}

// The record, and the drive's state.
fn next_stand(f: TaskFile, d: Drive, out: &mut [u8]) -> usize
    ensures { Laid out.old (stand_text f d) result out.new }
{
    let mut at = next_file(f, out);
    at += next_state(d, &mut out[at..]);
    at
}

// The line of a reset.
pub(crate) fn put_reset(f: TaskFile, a: Answer, out: &mut [u8]) -> usize
    ensures { Laid out.old (reset_line f a) result out.new }
{
    let mut at = put_call(b'R', a.number, out);
    at += next_stand(f, a.state, &mut out[at..]);
    at += copy_front(b"\n", &mut out[at..]);
    at
}

// A write's number and rule, and the blocks that a READ names.
fn put_blocks(a: Answer, out: &mut [u8]) -> usize
    ensures { Laid out.old (blocks_text a) result out.new }
{
    let mut at = put_ruled(b'w', a.number, a.rule, out);
    at += next_decimal(a.start, &mut out[at..]);
    at += next_decimal(a.count, &mut out[at..]);
    at
}

// The sum of the response memory, and the line's end.
fn next_last(memory: &[u8], out: &mut [u8]) -> usize
    ensures { Laid out.old (last_text memory.now) result out.new }
{
    let mut at = next_sum(memory, out);
    at += copy_front(b"\n", &mut out[at..]);
    at
}

// The line of a write, with the response memory afterwards.
pub(crate) fn put_wrote(f: TaskFile, a: Answer, memory: &[u8], out: &mut [u8]) -> usize
    ensures { Laid out.old (wrote_line f a memory.now) result out.new }
{
    let mut at = put_blocks(a, out);
    at += next_stand(f, a.state, &mut out[at..]);
    at += next_last(memory, &mut out[at..]);
    at
}

// A data read's number and byte.
fn put_given(a: Answer, out: &mut [u8]) -> usize
    ensures { Laid out.old (given_text a) result out.new }
{
    let mut at = put_call(b'r', a.number, out);
    at += next_hex(a.byte, &mut out[at..]);
    at
}

// The line of a data read, with the response memory.
pub(crate) fn put_read(f: TaskFile, a: Answer, memory: &[u8], out: &mut [u8]) -> usize
    ensures { Laid out.old (read_line f a memory.now) result out.new }
{
    let mut at = put_given(a, out);
    at += next_file(f, &mut out[at..]);
    at += next_last(memory, &mut out[at..]);
    at
}
