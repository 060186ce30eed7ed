// READ TOC's answers, each format's laid into the response memory.
ghost use Rattle.std.specs.Prelude.{◌≡◌, ◌-◌, take};
ghost use Rattle.ground.specs.Memory.{Laid};
ghost use Rattle.sessions.specs.Session.{session};
ghost use Rattle.toc.specs.Answer.{format0, format1, format2, toc_bytes, toc_bad};
ghost use Rattle.toc.specs.AnswerLaws.{head_of};

use crate::shown::{Show, put_all, put_described, shown_count};
use disc::disc::Disc;
use ground::memory::copy_front;
use ground::number::bytes16;
use sessions::session::starts_after;
use table::layout::ROW;

// The lead-out's number.
pub const AA: u8 = 0xAA;

// What READ TOC's packet asks for. The format is a number: `toc_bad` and `toc_bytes`, which theorems of the claims name, take any.
#[derive(Clone, Copy)]
pub struct TocAsk {
    pub format: usize,
    pub msf: bool,
    pub number: u8,
}

// The field checks: a number over the last track or session, or an unknown format.
#[tactic(auto, using(ground::specs::TestValues::test_values, ground::specs::Tests::when, ground::specs::Tests::unless), unfolding(crate::specs::Answer::toc_bad))]
pub fn toc_bad(disc: Disc, ask: TocAsk) -> bool
    ensures { result ≡ toc_bad disc ask.format ask.number }
{
    match ask.format {
        0 => disc.last < ask.number && ask.number != AA,
        1 => false,
        2 => disc.sessions < ask.number,
        _ => true,
    }
}

// The header of an answer: its data length n and two numbers.
fn put_head(n: usize, a: u8, b: u8, part: &mut [u8]) -> usize
    ensures { Laid part.old (head_of a b n) result part.new }
{
    let l = bytes16(n);
    let full = [l[0], l[1], a, b];
    copy_front(&full, part)
}

// Format 0: the tracks numbered n or more, then the lead-out.
fn put_format0(d: &[u8], disc: Disc, msf: bool, n: u8, part: &mut [u8]) -> usize
    ensures { Laid part.old (format0 disc msf n d.now) result part.new }
{
    let k = shown_count(d, n);
    let mut at = put_head(2 + (8 * k + 8), disc.first, disc.last, part);
    at += put_all(d, Show::Tracks { msf, from: n }, &mut part[at..]);
    at += put_described(msf, disc.lead_flags, AA, disc.lead_out, &mut part[at..]);
    at
}

// Format 1: the last session's first track.
fn put_format1(disc: Disc, msf: bool, part: &mut [u8]) -> usize
    ensures { Laid part.old (format1 disc msf) result part.new }
{
    let mut at = put_head(2 + 8, 1, disc.sessions, part);
    let a = disc.last_first_start;
    at += put_described(
        msf,
        disc.last_first_flags,
        disc.last_first,
        a,
        &mut part[at..],
    );
    at
}

// The descriptors of sessions n and up; session 0 stands for the first.
fn sessions_from(d: &[u8], n: u8) -> &[u8]
    ensures { result.now ≡ session d.now (n - 1) }
{
    let from = starts_after(d, n.saturating_sub(1)).min(d.len());
    &d[from..]
}

// Format 2: the descriptors of sessions n and up.
fn put_format2(d: &[u8], disc: Disc, n: u8, part: &mut [u8]) -> usize
    ensures { Laid part.old (format2 disc n d.now) result part.new }
{
    let s = sessions_from(d, n);
    let mut at = put_head(2 + ROW * (s.len() / ROW), 1, disc.sessions, part);
    at += put_all(s, Show::Whole, &mut part[at..]);
    at
}

// The full answer of a format, as far as the part holds it.
fn put_full(d: &[u8], disc: Disc, ask: TocAsk, part: &mut [u8]) -> usize
    ensures { Laid part.old (toc_bytes disc ask.format ask.msf ask.number d.now) result part.new }
{
    match ask.format {
        0 => put_format0(d, disc, ask.msf, ask.number, part),
        1 => put_format1(disc, ask.msf, part),
        _ => put_format2(d, disc, ask.number, part),
    }
}

// The answer cut to the allocation length.
pub fn put_toc(d: &[u8], disc: Disc, ask: TocAsk, room: usize, mem: &mut [u8]) -> usize
    ensures { Laid mem.old (take room (toc_bytes disc ask.format ask.msf ask.number d.now)) result mem.new }
{
    let e = room.min(mem.len());
    put_full(d, disc, ask, &mut mem[..e])
}
