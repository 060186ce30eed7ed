// A sheet as it is described: its lead-in, its tracks and its lead-out.
ghost use Rattle.std.specs.Prelude.{◌≡◌};
ghost use Rattle.cue.specs.Sheet.{is_lead_in, is_lead_out, is_framed, has_adr, every_adr, tracks_of};
ghost use Rattle.cue.specs.SpanLaws.{is_next, with_track, with_entry, span_of, is_run};

use crate::entry::{ENTRY, Entry, START, Track, entry_at};
use ground::number::wide;

// The lead-out's number.
pub const AA: u8 = 0xAA;

// The tracks gone over so far, one at least: the first, the last, and whether each number is one more than the one before.
#[derive(Clone, Copy)]
pub struct Span {
    pub first: Track,
    pub last: Track,
    pub follows: bool,
}

// The lead-in; its address is not looked at.
#[tactic(auto, using(ground::specs::TestValues::test_values), unfolding(crate::specs::Sheet::is_lead_in))]
fn is_lead_in(e: Entry) -> bool
    ensures { result ≡ is_lead_in e }
{
    e.track.number == 0 && e.index == 0
}

#[tactic(auto, using(ground::specs::TestValues::test_values), unfolding(crate::specs::Sheet::is_lead_out))]
fn is_lead_out(e: Entry) -> bool
    ensures { result ≡ is_lead_out e }
{
    e.track.number == AA && e.index == START
}

// The lead-in first and the lead-out last.
#[tactic(auto, using(ground::specs::TestValues::test_values), unfolding(crate::specs::Sheet::is_framed))]
pub(crate) fn is_framed(s: &[u8]) -> bool
    ensures { result ≡ is_framed s.now }
{
    let n = s.len() / ENTRY;
    2 <= n && is_lead_in(entry_at(s, 0)) && is_lead_out(entry_at(s, n - 1))
}

// The ADR of an entry is 1, whatever its index.
#[tactic(auto, using(ground::specs::TestValues::test_values), unfolding(crate::specs::Sheet::has_adr))]
fn has_adr(e: Entry) -> bool
    ensures { result ≡ has_adr e }
{
    e.track.flags / 16 == 1
}

// Every ADR is 1, of the entries that are passed over too.
pub(crate) fn every_adr(s: &[u8]) -> bool
    ensures { result ≡ every_adr s.now }
{
    for i in 0..s.len() / ENTRY {
        if !has_adr(entry_at(s, i)) {
            return false;
        }
    }
    true
}

// The number is one more than the one before.
#[tactic(auto, using(ground::specs::TestValues::test_values), unfolding(crate::specs::SpanLaws::is_next))]
fn is_next(span: Span, t: Track) -> bool
    ensures { result ≡ is_next span t }
{
    span.follows && wide(t.number) == wide(span.last.number) + 1
}

// One track more.
fn with_track(span: Option<Span>, t: Track) -> Span
    ensures { result ≡ with_track span t }
{
    match span {
        Some(before) => Span {
            last: t,
            follows: is_next(before, t),
            ..before
        },
        None => Span {
            first: t,
            last: t,
            follows: true,
        },
    }
}

// One entry more: another index than 1 is passed over.
#[tactic(auto, using(ground::specs::TestValues::test_values, ground::specs::Tests::when, ground::specs::Tests::unless), unfolding(crate::specs::SpanLaws::with_entry))]
fn with_entry(span: Option<Span>, e: Entry) -> Option<Span>
    ensures { result ≡ with_entry span e }
{
    if e.index == START {
        return Some(with_track(span, e.track));
    }
    span
}

// The tracks between the lead-in and the lead-out, if there are any.
pub(crate) fn span_of(s: &[u8]) -> Option<Span>
    ensures { result ≡ span_of (tracks_of s.now) }
{
    let n = (s.len() / ENTRY).saturating_sub(2);
    let mut span = None;
    for j in 0..n {
        span = with_entry(span, entry_at(s, j + 1));
    }
    span
}

// They are numbered f, f + 1, .. l, from 1 to 99.
#[tactic(auto, using(ground::specs::TestValues::test_values), unfolding(crate::specs::SpanLaws::is_run))]
pub(crate) fn is_run(span: Span) -> bool
    ensures { result ≡ is_run span }
{
    1 <= span.first.number && span.last.number <= 99 && span.follows
}
