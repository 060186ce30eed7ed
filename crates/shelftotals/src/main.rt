// Counts the tables that standard input holds, and prints what they come to.
#![tactic(auto)]

mod line;
mod progress;

ghost use Rattle.std.specs.Prelude.{◌+◌, ◌≤◌, ◌<◌, ◌≡◌, length, take, IfOk};

use input::{fail, is_given, say};
use line::put_told;
use print::front::front;
use progress::{Progress, begin, end, go_on};
use shelf::stream::{count_all, take_in};
use shelf::totals::{TooLarge, Totals, nothing};
use std::io;
use std::io::Read;

// The bytes that are held at once. The longest table has 65,537, and what is left of a table has fewer, so a read always finds room.
const ROOM: usize = 131072;

// Prints the totals, or that one of them is too large. Thirteen lines have at most 20 digits and a line end each.
fn tell(rt: &HostRuntime, counted: Result<Totals, TooLarge>) {
    let mut text = [0u8; 13 * 21];
    let n = put_told(counted, &mut text);
    if let Err(e) = rt.write_all(front(&text, n)) {
        fail(rt, b"standard output", e);
    }
}

// One read, behind the first `have` bytes of the room, which stay. There is room, so no byte read is the end of the input.
fn read_behind(rt: &HostRuntime, room: &mut [u8], have: usize) -> io::Result<usize>
    requires { have < length room.old }
    ensures within { IfOk result (λ n. have + n ≤ length room.new) }
    ensures stays { take have room.new ≡ take have room.old }
{
    rt.stdin().read(&mut room[have..])
}

// Reads and counts, a piece at a time, until the input ends, and prints what all comes to, the last table perhaps cut off; or why it cannot be
// read. A proved loop has to end, and nothing says that the input does: so it has a number of turns that no run uses up.
fn run(rt: &HostRuntime, room: &mut [u8])
    requires { 65536 < length room.old }
{
    let mut totals = nothing();
    let mut have = 0;
    let mut progress = begin(rt);
    for _ in 0..u64::MAX {
        let n = match read_behind(rt, room, have) {
            Ok(0) => {
                end(rt, progress);
                return tell(rt, count_all(totals, front(room, have)));
            }
            Ok(n) => n,
            Err(e) => {
                end(rt, progress);
                return fail(rt, b"standard input", e);
            }
        };
        progress = go_on(rt, progress, n);
        match take_in(totals, room, have + n) {
            Ok(taken) => {
                totals = taken.totals;
                have = taken.left;
            }
            Err(TooLarge) => {
                end(rt, progress);
                return tell(rt, Err(TooLarge));
            }
        }
    }
}

fn main(rt: HostRuntime) {
    if !is_given(&rt, 0) || is_given(&rt, 1) {
        say(&rt, b"usage: shelftotals <TABLES\n");
        return;
    }
    let mut room = [0u8; ROOM];
    run(&rt, &mut room);
}
