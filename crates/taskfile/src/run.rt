// Runs: the limit, the bytes of a run, and which run a record is in.
ghost use Rattle.std.specs.Prelude.{◌≡◌, true, ◌<◌, ◌%◌};
ghost use Rattle.taskfile.specs.TaskFile.{counting, count_of};
ghost use Rattle.taskfile.specs.Run.{limit_of, is_limit, size_of, is_run, takes_list, is_packet_run, is_list_run, is_answer_run, phase_of, left_in, left_of};

use crate::{Phase, TaskFile};
use ground::number::{bytes16, word16};
use table::layout::BOUND;

// The interrupt reasons: IO is bit 1, CoD bit 0. (Bytes, since C reads the register: C interface.)
pub const TAKES_LIST: u8 = 0x00;

pub const TAKES_PACKET: u8 = 0x01;

pub const GIVES_ANSWER: u8 = 0x02;

pub const SHOWS_STATUS: u8 = 0x03;

// What a reset puts in the byte count.
pub const SIGNATURE_LOW: u8 = 0x14;

pub const SIGNATURE_HIGH: u8 = 0xEB;

// The bytes of a packet, and of a list.
pub const PACKET: usize = 12;

pub const LIST: usize = 16;

// MODE SELECT(10), the one command with a list.
const SELECT: u8 = 0x55;

// The byte count as a limit: 0 counts as 65,534, 1 as 2, an odd one as one less.
pub fn limit_of(count: usize) -> usize
    ensures { result ≡ limit_of count }
{
    if count == 0 {
        return 65534;
    }
    if count == 1 {
        return 2;
    }
    count - count % 2
}

// A limit that a byte count gives.
fn is_limit(m: usize) -> bool
    ensures { result ≡ is_limit m }
{
    m < 65536 && limit_of(m) == m
}

// How many bytes of its run went before the byte at.
pub(crate) fn into_run(at: usize, limit: usize) -> usize
    ensures { result ≡ at % limit }
{
    if limit == 0 {
        return at;
    }
    at % limit
}

// The bytes of the run that the next byte is in.
fn size_of(f: TaskFile) -> usize
    requires { f.at < f.len }
    ensures { result ≡ size_of f }
{
    let at = f.at;
    let limit = f.limit;
    let begun = at - into_run(at, limit);
    limit.min(f.len - begun)
}

// The bytes left of it.
fn left(f: TaskFile) -> usize
    requires { f.at < f.len }
    ensures { result ≡ left_in f }
{
    size_of(f).saturating_sub(into_run(f.at, f.limit))
}

// The byte count.
pub(crate) fn count_of(f: TaskFile) -> usize
    ensures { result ≡ count_of f }
{
    word16(f.high, f.low)
}

// The record with n in the byte count.
// (The record is changed where it stands: `..f` would copy packet and list byte by byte.)
pub(crate) fn counting(mut f: TaskFile, n: usize) -> TaskFile
    ensures { result ≡ counting f n }
{
    let b = bytes16(n);
    f.high = b[0];
    f.low = b[1];
    f
}

// The record is in a run of list or answer: its limit is one, there is a next byte, and the byte count has the run's bytes.
fn is_run(f: TaskFile) -> bool
    ensures { result ≡ is_run f }
{
    is_limit(f.limit) && f.at < f.len && count_of(f) == size_of(f)
}

// Only 55h asking for 16 bytes takes a list.
pub(crate) fn takes_list(p: [u8; 12]) -> bool
    ensures { result ≡ takes_list p }
{
    p[0] == SELECT && word16(p[7], p[8]) == LIST
}

fn is_packet_run(f: TaskFile) -> bool
    ensures { result ≡ is_packet_run f }
{
    f.reason == TAKES_PACKET && f.limit == PACKET && f.len == PACKET && f.at < PACKET
}

fn is_list_run(f: TaskFile) -> bool
    ensures { result ≡ is_list_run f }
{
    f.reason == TAKES_LIST && takes_list(f.packet) && f.len == LIST && is_run(f)
}

fn is_answer_run(f: TaskFile) -> bool
    ensures { result ≡ is_answer_run f }
{
    f.reason == GIVES_ANSWER && f.len <= BOUND && is_run(f)
}

// The run that a record is in; one that no call could have made is in none.
pub fn phase_of(f: TaskFile) -> Phase
    ensures { result ≡ phase_of f }
{
    if is_packet_run(f) {
        return Phase::PacketRun;
    }
    if is_list_run(f) {
        return Phase::ListRun;
    }
    if is_answer_run(f) {
        return Phase::AnswerRun;
    }
    Phase::Idle
}

// The bytes left of the run that a record is in.
pub fn left_of(f: TaskFile) -> usize
    ensures { result ≡ left_of f }
{
    match phase_of(f) {
        Phase::Idle => 0,
        Phase::PacketRun | Phase::ListRun | Phase::AnswerRun => left(f),
    }
}
