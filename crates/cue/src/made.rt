// The table made of a sheet's tracks and lead-out. (That a span is of the sheet's tracks ties it to bytes that it doesn't hold: as a ghost field it
// would hold the sheet, and be no plainer.)
ghost use Rattle.std.specs.Prelude.{◌≡◌, true, ◌≤◌};
ghost use Rattle.ground.specs.Memory.{Laid};
ghost use Rattle.cue.specs.Sheet.{tracks_of};
ghost use Rattle.cue.specs.Made.{descriptor, rows_of, table_with};
ghost use Rattle.cue.specs.MadeLaws.{shown_entry, header_of, heads_of};
ghost use Rattle.cue.specs.SpanLaws.{span_of, is_run};

use crate::entry::{ENTRY, Entry, START, Track, entry_at};
use crate::sheet::Span;
use ground::memory::copy_front;
use ground::number::{bytes16, wide};
use table::layout::{A0, A1, A2, ROW};

// A descriptor of session 1, laid into the rest of the table: MIN, SEC, FRAME and ZERO are 0.
fn put_row(flags: u8, point: u8, m: u8, s: u8, f: u8, rest: &mut [u8]) -> usize
    ensures { Laid rest.old (descriptor flags point m s f) result rest.new }
{
    let full = [1, flags, 0, point, 0, 0, 0, 0, m, s, f];
    copy_front(&full, rest)
}

// The descriptor of an entry that begins a track, laid into the rest of the table; nothing for another.
fn put_entry(e: Entry, rest: &mut [u8]) -> usize
    ensures { Laid rest.old (shown_entry e) result rest.new }
{
    if e.index == START {
        let t = e.track;
        return put_row(t.flags, t.number, t.minute, t.second, t.frame, rest);
    }
    0
}

// The descriptors of all tracks, each where the one before ended.
fn put_tracks(s: &[u8], part: &mut [u8]) -> usize
    ensures { Laid part.old (rows_of (tracks_of s.now)) result part.new }
{
    let n = (s.len() / ENTRY).saturating_sub(2);
    let mut at = 0;
    for j in 0..n {
        at += put_entry(entry_at(s, j + 1), &mut part[at..]);
    }
    at
}

// The header of a table of n tracks in one session.
fn put_header(n: usize, part: &mut [u8]) -> usize
    requires { n ≤ 99 }
    ensures { Laid part.old (header_of n) result part.new }
{
    let l = bytes16(2 + ROW * (3 + n));
    let full = [l[0], l[1], 1, 1];
    copy_front(&full, part)
}

// A0 and A1 with the first and the last track's control and number, and A2 with the lead-out's control and address.
fn put_heads(first: Track, last: Track, out: Track, part: &mut [u8]) -> usize
    ensures { Laid part.old (heads_of first last out) result part.new }
{
    let mut at = put_row(first.flags, A0, first.number, 0, 0, part);
    at += put_row(last.flags, A1, last.number, 0, 0, &mut part[at..]);
    at += put_row(
        out.flags,
        A2,
        out.minute,
        out.second,
        out.frame,
        &mut part[at..],
    );
    at
}

// The table of a sheet whose tracks are gone over, and whose lead-out is out.
pub(crate) fn put_table(s: &[u8], span: Span, out: Track, part: &mut [u8]) -> usize
    requires { (Some span ≡ span_of (tracks_of s.now)) × (is_run span ≡ true) }
    ensures { Laid part.old (table_with (tracks_of s.now) out) result part.new }
{
    let first = span.first;
    let last = span.last;
    let n = wide(last.number) + 1 - wide(first.number);
    let mut at = put_header(n, part);
    at += put_heads(first, last, out, &mut part[at..]);
    at += put_tracks(s, &mut part[at..]);
    at
}
