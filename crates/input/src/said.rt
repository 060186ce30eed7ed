// Lines on standard error. One that cannot be written is not written: there is nowhere left to say so.
use print::front::front;
use std::io;
use std::io::{Cursor, Write};

// The most bytes of a reason, which none has.
const REASON: usize = 128;

// Writes the bytes to standard error.
pub fn say(rt: &HostRuntime, text: &[u8]) {
    let _ = rt.stderr().write_all(text);
}

// The reason without its number, which std writes behind it in parentheses.
fn unnumbered(reason: &[u8]) -> &[u8] {
    match reason.iter().position(|b| *b == b'(') {
        Some(i) => front(reason, i.saturating_sub(1)),
        None => reason,
    }
}

// Writes a line to standard error: what failed, a colon and the reason.
pub fn fail(rt: &HostRuntime, what: &[u8], error: io::Error) {
    let mut reason = [0u8; REASON];
    let mut room = Cursor::new(&mut reason[..]);
    let _ = write!(room, "{error}");
    let n = room.position() as usize;
    say(rt, what);
    say(rt, b": ");
    say(rt, unnumbered(front(&reason, n)));
    say(rt, b"\n");
}
