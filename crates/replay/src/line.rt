// The lines that a call prints. (What a line prints and where it goes are parameters: a struct of them would be no plainer.)
ghost use Rattle.std.specs.Prelude.{◌≡◌};
ghost use Rattle.ground.specs.Memory.{Laid};
ghost use Rattle.cue.specs.Write.{written_meaning};
ghost use Rattle.disc.specs.Part.{refusal_meaning};
ghost use Rattle.replay.specs.Line.{digit as Line·digit};
ghost use Rattle.replay.specs.Line.{play_text, page_text, kept_text, state_text, call, rule_text, ruled_call, sum_text, decimals, moved_line, outcome_text, memory_text, packet_line, slots_text, changer_text, stood_line, changer_line, msf_line, address_line, summed_text, part_line, written_line, totals_line, counted_line};

use changer::Changer;
use cue::write::{Refusal, number_and_len};
use deck::Deck;
use disc::part;
use disc::part::{UNFIT, number_and_rule};
use drive::state::Drive;
use ground::memory::copy_front;
use ground::number::{bytes32, wide};
use outcome::Outcome;
use page::Page;
use play::Play;
use print::decimal::{next_decimal, put_decimal};
use print::front::front;
use print::hex::{next_hex, next_shown, next_three};
use print::numbers::put_joined;
use print::sum::adler32;
use shelf::totals::{TooLarge, Totals, numbers};

// A flag as '0' or '1'. (A function, since the definition `digit` has that name.)
fn digit(b: bool) -> u8
    ensures { result ≡ Line·digit b }
{
    if b {
        return b'1';
    }
    b'0'
}

// The play record: its status, position and end.
fn next_play(r: Play, out: &mut [u8]) -> usize
    ensures { Laid out.old (play_text r) result out.new }
{
    let mut at = next_hex(r.status, out);
    at += next_decimal(r.position, &mut out[at..]);
    at += next_decimal(r.end, &mut out[at..]);
    at
}

// The mode page: its recovery byte and retry count.
fn next_page(g: Page, out: &mut [u8]) -> usize
    ensures { Laid out.old (page_text g) result out.new }
{
    let mut at = next_hex(g.recovery, out);
    at += next_hex(g.retry, &mut out[at..]);
    at
}

// What the deck keeps beside its flags: the play record, the mode page and the media event.
fn next_kept(m: Deck, out: &mut [u8]) -> usize
    ensures { Laid out.old (kept_text m) result out.new }
{
    let mut at = next_play(m.play, out);
    at += next_page(m.page, &mut out[at..]);
    at += next_decimal(wide(m.event), &mut out[at..]);
    at
}

// The state: five flags, the held sense, the play record, the mode page and the media event.
pub(crate) fn next_state(d: Drive, out: &mut [u8]) -> usize
    ensures { Laid out.old (state_text d) result out.new }
{
    let m = d.deck;
    let u = d.unit;
    let s = u.sense;
    let flags = [
        b' ',
        digit(m.tray_open),
        digit(m.disc_in),
        digit(m.lock),
        digit(u.power),
        digit(u.change),
    ];
    let mut at = copy_front(&flags, out);
    at += next_three(s.key, s.asc, s.ascq, &mut out[at..]);
    at += next_kept(m, &mut out[at..]);
    at
}

// A call's letter, and the refusal's number or 0.
pub(crate) fn put_call(letter: u8, number: u8, out: &mut [u8]) -> usize
    ensures { Laid out.old (call letter number) result out.new }
{
    let first = [letter];
    let mut at = copy_front(&first, out);
    at += next_decimal(wide(number), &mut out[at..]);
    at
}

// The broken rule after a dot, where the number is 4.
fn put_rule(number: u8, rule: u8, out: &mut [u8]) -> usize
    ensures { Laid out.old (rule_text number rule) result out.new }
{
    if number == UNFIT {
        let mut at = copy_front(b".", out);
        at += put_decimal(wide(rule), &mut out[at..]);
        return at;
    }
    0
}

// The letter and number of a call that a table's rule can stand beside, and the rule.
pub(crate) fn put_ruled(letter: u8, number: u8, rule: u8, out: &mut [u8]) -> usize
    ensures { Laid out.old (ruled_call letter number rule) result out.new }
{
    let mut at = put_call(letter, number, out);
    at += put_rule(number, rule, &mut out[at..]);
    at
}

// The Adler-32 of the bytes.
pub(crate) fn next_sum(s: &[u8], out: &mut [u8]) -> usize
    ensures { Laid out.old (sum_text s.now) result out.new }
{
    let b = bytes32(adler32(s));
    next_shown(&b, out)
}

// Three decimals.
fn next_decimals(a: usize, b: usize, c: usize, out: &mut [u8]) -> usize
    ensures { Laid out.old (decimals a b c) result out.new }
{
    let mut at = next_decimal(a, out);
    at += next_decimal(b, &mut out[at..]);
    at += next_decimal(c, &mut out[at..]);
    at
}

// The line of a call that is no packet.
pub(crate) fn put_moved(letter: u8, number: u8, d: Drive, out: &mut [u8]) -> usize
    ensures { Laid out.old (moved_line letter number d) result out.new }
{
    let mut at = put_call(letter, number, out);
    at += next_state(d, &mut out[at..]);
    at += copy_front(b"\n", &mut out[at..]);
    at
}

// A packet's letter and outcome, up to its state.
fn put_outcome(letter: u8, o: Outcome, out: &mut [u8]) -> usize
    ensures { Laid out.old (outcome_text letter o) result out.new }
{
    let mut at = put_ruled(letter, o.number, o.rule, out);
    at += next_hex(o.status, &mut out[at..]);
    at += next_decimals(o.len, o.start, o.count, &mut out[at..]);
    at
}

// The bytes that a packet wrote, and the sum of the whole memory.
fn next_memory(bytes: &[u8], memory: &[u8], out: &mut [u8]) -> usize
    ensures { Laid out.old (memory_text bytes.now memory.now) result out.new }
{
    let mut at = next_shown(bytes, out);
    at += next_sum(memory, &mut out[at..]);
    at += copy_front(b"\n", &mut out[at..]);
    at
}

// A packet's line, with the response memory afterwards.
pub(crate) fn put_packet(o: Outcome, memory: &[u8], out: &mut [u8]) -> usize
    ensures { Laid out.old (packet_line o memory.now) result out.new }
{
    let state = o.state;
    let mut at = put_outcome(b'p', o, out);
    at += next_state(state, &mut out[at..]);
    at += next_memory(front(memory, o.len), memory, &mut out[at..]);
    at
}

// The home and the slots, a byte each.
fn next_slots(home: u8, slots: &[u8], out: &mut [u8]) -> usize
    ensures { Laid out.old (slots_text home slots.now) result out.new }
{
    let mut at = next_decimal(wide(home), out);
    at += next_shown(slots, &mut out[at..]);
    at
}

// The changer's state: the drive's, the home and the slots.
fn next_changer(c: Changer, slots: &[u8], out: &mut [u8]) -> usize
    ensures { Laid out.old (changer_text c slots.now) result out.new }
{
    let mut at = next_state(c.drive, out);
    at += next_slots(c.home, slots, &mut out[at..]);
    at
}

// The line of a call on the changer that is no packet.
pub(crate) fn put_stood(letter: u8, number: u8, c: Changer, slots: &[u8], out: &mut [u8]) -> usize
    ensures { Laid out.old (stood_line letter number c slots.now) result out.new }
{
    let mut at = put_call(letter, number, out);
    at += next_changer(c, slots, &mut out[at..]);
    at += copy_front(b"\n", &mut out[at..]);
    at
}

// The line of a packet to the changer, with the slots and the response memory afterwards.
pub(crate) fn put_changer(
    o: Outcome,
    home: u8,
    slots: &[u8],
    memory: &[u8],
    out: &mut [u8],
) -> usize
    ensures { Laid out.old (changer_line o home slots.now memory.now) result out.new }
{
    let drive = o.state;
    let mut at = put_outcome(b'P', o, out);
    at += next_changer(Changer { drive, home }, slots, &mut out[at..]);
    at += next_memory(front(memory, o.len), memory, &mut out[at..]);
    at
}

// The line of an address to M:S:F.
pub(crate) fn put_msf(number: u8, m: u8, s: u8, f: u8, out: &mut [u8]) -> usize
    ensures { Laid out.old (msf_line number m s f) result out.new }
{
    let mut at = put_call(b'a', number, out);
    at += next_decimals(wide(m), wide(s), wide(f), &mut out[at..]);
    at += copy_front(b"\n", &mut out[at..]);
    at
}

// The line of an M:S:F to its address.
pub(crate) fn put_address(number: u8, a: usize, out: &mut [u8]) -> usize
    ensures { Laid out.old (address_line number a) result out.new }
{
    let mut at = put_call(b'c', number, out);
    at += next_decimal(a, &mut out[at..]);
    at += copy_front(b"\n", &mut out[at..]);
    at
}

// A length, and the sum of bytes.
fn next_summed(len: usize, s: &[u8], out: &mut [u8]) -> usize
    ensures { Laid out.old (summed_text len s.now) result out.new }
{
    let mut at = next_decimal(len, out);
    at += next_sum(s, &mut out[at..]);
    at
}

// The line of a session's part.
pub(crate) fn put_part(refusal: Option<part::Refusal>, part: &[u8], out: &mut [u8]) -> usize
    ensures { Laid out.old (part_line (refusal_meaning refusal).number (refusal_meaning refusal).rule part.now) result out.new }
{
    let told = number_and_rule(refusal);
    let mut at = put_ruled(b's', told.number, told.rule, out);
    at += next_summed(part.len(), part, &mut out[at..]);
    at += copy_front(b"\n", &mut out[at..]);
    at
}

// The line of a cue sheet, with the memory afterwards.
pub(crate) fn put_written(w: Result<usize, Refusal>, memory: &[u8], out: &mut [u8]) -> usize
    ensures { Laid out.old (written_line (written_meaning w) memory.now) result out.new }
{
    let told = number_and_len(w);
    let mut at = put_call(b't', told.number, out);
    at += next_summed(told.len, memory, &mut out[at..]);
    at += copy_front(b"\n", &mut out[at..]);
    at
}

// The totals of a shelf.
fn put_totals(totals: Totals, out: &mut [u8]) -> usize
    ensures { Laid out.old (totals_line totals) result out.new }
{
    let mut at = copy_front(b"h ", out);
    at += put_joined(&numbers(totals), b' ', &mut out[at..]);
    at += copy_front(b"\n", &mut out[at..]);
    at
}

// The line of a shelf.
pub(crate) fn put_counted(counted: Result<Totals, TooLarge>, out: &mut [u8]) -> usize
    ensures { Laid out.old (counted_line counted) result out.new }
{
    match counted {
        Ok(totals) => put_totals(totals, out),
        Err(TooLarge) => copy_front(b"h too large\n", out),
    }
}
