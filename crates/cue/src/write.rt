// The call: a cue sheet turned into a disc table in lent memory.
ghost use Rattle.std.specs.Prelude.{◌≡◌, true, ◌≤◌, length, take};
ghost use Rattle.table.specs.Layout.{bound};
ghost use Rattle.disc.specs.Rules.{fault};
ghost use Rattle.cue.specs.Sheet.{tracks_of, is_described};
ghost use Rattle.cue.specs.Made.{table_with};
ghost use Rattle.cue.specs.SpanLaws.{span_of, is_run};
ghost use Rattle.cue.specs.Write.{written_meaning, hand_out, whole_answer, answer, Turned};

use crate::entry::{ENTRY, Track, entry_at};
use crate::made::put_table;
use crate::sheet::{Span, every_adr, is_framed, is_run, span_of};
use disc::disc::fault;
use ground::memory::put_cut;
use table::layout::BOUND;

// The refusals' numbers, as `written_meaning` gives them: a length that is not a multiple of 8; a sheet that is not as described, or whose tracks, controls and addresses no fit
// table has; output memory under 6,538 bytes.
pub const NOT_WHOLE: u8 = 12;

pub const NO_TABLE: u8 = 13;

pub const NO_ROOM: u8 = 14;

// Why a sheet is refused, and nothing written.
#[derive(Clone, Copy, Debug, PartialEq, Eq)]
pub enum Refusal {
    NotWhole,
    NoTable,
    NoRoom,
}

// A refusal's number or 0, and how many bytes were written.
#[derive(Clone, Copy)]
pub struct Written {
    pub number: u8,
    pub len: usize,
}

// The refusal's number.
fn number_of(refusal: Refusal) -> u8
    ensures { result ≡ (written_meaning (Err refusal)).number }
{
    match refusal {
        Refusal::NotWhole => NOT_WHOLE,
        Refusal::NoTable => NO_TABLE,
        Refusal::NoRoom => NO_ROOM,
    }
}

// What `write_table` hands back stands for: the refusal's number or 0, and how many bytes were written.
pub fn number_and_len(written: Result<usize, Refusal>) -> Written
    ensures { result ≡ written_meaning written }
{
    match written {
        Ok(len) => Written { number: 0, len },
        Err(refusal) => Written {
            number: number_of(refusal),
            len: 0,
        },
    }
}

// The first n bytes of the room, if they are a fit table: `broken` is the first rule that they break, or 0.
fn hand_out(room: &[u8], n: usize, broken: u8, mem: &mut [u8]) -> Result<usize, Refusal>
    requires { (broken ≡ fault (take n room.now)) × (n ≡ length (take n room.now)) × (n ≤ length mem.old) }
    ensures { Turned (hand_out (take n room.now)) mem.old (written_meaning result) mem.new }
{
    if broken != 0 {
        return Err(Refusal::NoTable);
    }
    put_cut(room, n, mem);
    Ok(n)
}

// The table made of the sheet's tracks and lead-out, if it is fit.
fn write_made(s: &[u8], span: Span, out: Track, mem: &mut [u8]) -> Result<usize, Refusal>
    requires { (Some span ≡ span_of (tracks_of s.now)) × (is_run span ≡ true) × (bound ≤ length mem.old) }
    ensures { Turned (hand_out (table_with (tracks_of s.now) out)) mem.old (written_meaning result) mem.new }
{
    let mut room = [0u8; BOUND];
    let n = put_table(s, span, out, &mut room);
    let broken = fault(&room[..n]);
    hand_out(&room, n, broken, mem)
}

// The sheet is as described; span is of its tracks.
fn is_described(s: &[u8], span: Span) -> bool
    requires { Some span ≡ span_of (tracks_of s.now) }
    ensures { result ≡ is_described s.now }
{
    is_framed(s) && every_adr(s) && is_run(span)
}

// A sheet of whole entries.
fn write_whole(s: &[u8], mem: &mut [u8]) -> Result<usize, Refusal>
    requires { bound ≤ length mem.old }
    ensures { Turned (whole_answer s.now) mem.old (written_meaning result) mem.new }
{
    let Some(span) = span_of(s) else {
        return Err(Refusal::NoTable);
    };
    if !is_described(s, span) {
        return Err(Refusal::NoTable);
    }
    let last = entry_at(s, s.len() / ENTRY - 1);
    write_made(s, span, last.track, mem)
}

// Turns a sheet into a table: the bytes written are a fit table with the sheet's tracks, controls and addresses, and memory past them
// stays as it was; refused, all of it does.
pub fn write_table(sheet: &[u8], memory: &mut [u8]) -> Result<usize, Refusal>
    ensures { Turned (answer sheet.now (length memory.old)) memory.old (written_meaning result) memory.new }
{
    if memory.len() < BOUND {
        return Err(Refusal::NoRoom);
    }
    if sheet.len() % ENTRY != 0 {
        return Err(Refusal::NotWhole);
    }
    write_whole(sheet, memory)
}
