// Runs a recorded stream of calls from standard input, and prints a line for each.
#![tactic(auto)]

mod bench;
mod given;
mod host;
mod line;
mod magazine;
mod task;

ghost use Rattle.std.specs.Prelude.{◌≤◌, length};

use bench::{BODY, Bad, Bench, empty};
use ground::number::word16;
use print::front::front;
use std::io::Read;

// Reads until buf is full, the input ends or a read fails, and says how many bytes it put at the start of buf.
// (A `while`: the system says how far each read goes.)
fn read_full(rt: &HostRuntime, buf: &mut [u8]) -> usize
    ensures { result ≤ length buf.new }
{
    let mut done = 0;
    while done < buf.len() {
        match rt.stdin().read(&mut buf[done..]) {
            Ok(0) | Err(_) => break,
            Ok(n) => done += n,
        }
    }
    done
}

// Reads a record and meets it: how many bytes its line has, or that the input ends.
fn turn(
    rt: &HostRuntime,
    bench: &mut Bench,
    body: &mut [u8],
    line: &mut [u8],
) -> Result<Option<usize>, Bad> {
    let mut head = [0u8; 3];
    let got = read_full(rt, &mut head);
    if got == 0 {
        return Ok(None);
    }
    let n = word16(head[1], head[2]);
    if got < 3 || body.len() < n || read_full(rt, &mut body[..n]) < n {
        return Err(Bad);
    }
    let len = bench.meet(head[0], front(body, n), line)?;
    Ok(Some(len))
}

// A proved loop has to end, and nothing says that the input does. So it has a number of turns that no run uses up.
fn run(rt: &HostRuntime, bench: &mut Bench, body: &mut [u8], line: &mut [u8]) {
    for _ in 0..u64::MAX {
        let text = match turn(rt, bench, body, line) {
            Ok(Some(n)) => front(line, n),
            Ok(None) => return,
            Err(Bad) => {
                let _ = rt.write_all(b"bad record\n");
                return;
            }
        };
        if rt.write_all(text).is_err() {
            return;
        }
    }
}

fn main(rt: HostRuntime) {
    let mut bench = empty();
    let mut body = [0u8; BODY];
    let mut line = [0u8; 17000];
    run(&rt, &mut bench, &mut body, &mut line);
}
