// Turns a file that holds a cue sheet into a disc table, on standard output.
#![tactic(auto)]

use cue::write::{Refusal, write_table};
use input::{fail, is_given, load, say};
use print::front::front;
use table::layout::BOUND;

// The most bytes of a sheet file: 16,384 entries, where 99 tracks with 100 indexes each have 9,902. The call itself has no such bound.
const MOST: usize = 131072;

// What a refusal's number means.
fn say_refused(rt: &HostRuntime, refusal: Refusal) {
    let text: &[u8] = match refusal {
        Refusal::NotWhole => b"refused 12: the sheet is not whole entries of 8 bytes\n",
        Refusal::NoTable => {
            b"refused 13: the sheet is not as described, or no fit table has its tracks, controls and addresses\n"
        }
        Refusal::NoRoom => b"refused 14: the output memory is under 6,538 bytes\n",
    };
    say(rt, text);
}

// Writes the sheet's table, or says why there is none.
fn turn(rt: &HostRuntime, sheet: &[u8]) {
    let mut memory = [0u8; BOUND];
    match write_table(sheet, &mut memory) {
        Ok(len) => {
            if let Err(e) = rt.write_all(front(&memory, len)) {
                fail(rt, b"standard output", e);
            }
        }
        Err(refusal) => say_refused(rt, refusal),
    }
}

fn main(rt: HostRuntime) {
    if !is_given(&rt, 1) || is_given(&rt, 2) {
        say(&rt, b"usage: cuefile SHEET\n");
        return;
    }
    let mut sheet = [0u8; MOST + 1];
    let Some(n) = load(&rt, 1, &mut sheet) else {
        return;
    };
    if MOST < n {
        say(&rt, b"too long: a sheet file has at most 131,072 bytes\n");
        return;
    }
    turn(&rt, front(&sheet, n));
}
