// A packet's line. (What it prints and where it goes are parameters: a struct of them would be no plainer.)
ghost use Rattle.ground.specs.Memory.{Laid};
ghost use Rattle.listing.specs.Line.{blocks, yielded, started, answered, rule_shown, refusal, refused, line_of};

use disc::part::UNFIT;
use ground::memory::copy_front;
use ground::number::wide;
use outcome::Outcome;
use print::decimal::{next_decimal, put_decimal};
use print::hex::{next_hex, next_shown, next_three};

// The blocks that an answer names: start and count.
fn next_blocks(o: Outcome, out: &mut [u8]) -> usize
    ensures { Laid out.old (blocks o) result out.new }
{
    let mut at = next_decimal(o.start, out);
    at += next_decimal(o.count, &mut out[at..]);
    at
}

// What an answer yields: byte count, bytes, start and count.
fn next_yield(o: Outcome, bytes: &[u8], out: &mut [u8]) -> usize
    ensures { Laid out.old (yielded o bytes.now) result out.new }
{
    let mut at = next_decimal(o.len, out);
    at += next_shown(bytes, &mut out[at..]);
    at += next_blocks(o, &mut out[at..]);
    at
}

// The packet's number, its status and the sense held afterwards.
fn put_start(n: usize, o: Outcome, out: &mut [u8]) -> usize
    ensures { Laid out.old (started n o) result out.new }
{
    let s = o.state.unit.sense;
    let mut at = put_decimal(n, out);
    at += next_hex(o.status, &mut out[at..]);
    at += next_three(s.key, s.asc, s.ascq, &mut out[at..]);
    at
}

// Packet n's answer.
fn put_answered(n: usize, o: Outcome, bytes: &[u8], out: &mut [u8]) -> usize
    ensures { Laid out.old (answered n o bytes.now) result out.new }
{
    let mut at = put_start(n, o, out);
    at += next_yield(o, bytes, &mut out[at..]);
    at += copy_front(b"\n", &mut out[at..]);
    at
}

// The broken rule, after a 4 alone.
fn next_rule(number: u8, rule: u8, out: &mut [u8]) -> usize
    ensures { Laid out.old (rule_shown number rule) result out.new }
{
    if number == UNFIT {
        return next_decimal(wide(rule), out);
    }
    0
}

// That the packet was refused, by which number, and with which rule.
fn next_refusal(number: u8, rule: u8, out: &mut [u8]) -> usize
    ensures { Laid out.old (refusal number rule) result out.new }
{
    let mut at = copy_front(b" refused", out);
    at += next_decimal(wide(number), &mut out[at..]);
    at += next_rule(number, rule, &mut out[at..]);
    at
}

// Packet n's refusal.
fn put_refused(n: usize, number: u8, rule: u8, out: &mut [u8]) -> usize
    ensures { Laid out.old (refused n number rule) result out.new }
{
    let mut at = put_decimal(n, out);
    at += next_refusal(number, rule, &mut out[at..]);
    at += copy_front(b"\n", &mut out[at..]);
    at
}

// Packet n's line, with the bytes that it wrote.
pub(crate) fn put_line(n: usize, o: Outcome, bytes: &[u8], out: &mut [u8]) -> usize
    ensures { Laid out.old (line_of n o bytes.now) result out.new }
{
    if o.number == 0 {
        return put_answered(n, o, bytes, out);
    }
    put_refused(n, o.number, o.rule, out)
}
