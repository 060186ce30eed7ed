// How far the reading is, on a terminal, where the input is long.
use ground::memory::copy_front;
use input::say;
use print::decimal::put_decimal;
use print::front::front;
use std::fs::File;
use std::io;
use std::io::{IsTerminal, Write};

// The bytes of a mebibyte, and how many are read between two shows.
const MEBIBYTE: usize = 1048576;

const STEP: usize = 67108864;

// The descriptor by which `./shelf` hands a terminal on: `.ci/program` catches the program's own standard error.
const HANDED: &str = "/dev/fd/4";

// The terminal that shows it: standard error, or what is handed on.
#[derive(Clone, Copy)]
pub enum Terminal {
    OfErrors,
    Handed,
}

// The terminal, if there is one; the bytes read; and how many more until that is shown again.
#[derive(Clone, Copy)]
pub struct Progress {
    pub terminal: Option<Terminal>,
    pub read: usize,
    pub left: usize,
}

// What is handed on, opened anew. It is opened for reading too, since a pipe that nobody reads would keep an opening for writing alone waiting.
fn open_handed(rt: &HostRuntime) -> io::Result<File> {
    File::options().read(true).write(true).open(rt, HANDED)
}

fn is_handed(rt: &HostRuntime) -> bool {
    open_handed(rt).is_ok_and(|file| file.is_terminal())
}

fn find_terminal(rt: &HostRuntime) -> Option<Terminal> {
    if rt.stderr().is_terminal() {
        return Some(Terminal::OfErrors);
    }
    if is_handed(rt) {
        return Some(Terminal::Handed);
    }
    None
}

// Writes to the terminal. Where that fails, nothing is shown.
fn write(rt: &HostRuntime, terminal: Terminal, text: &[u8]) {
    match terminal {
        Terminal::OfErrors => say(rt, text),
        Terminal::Handed => {
            if let Ok(mut file) = open_handed(rt) {
                let _ = file.write_all(text);
            }
        }
    }
}

// Nothing is read yet.
pub(crate) fn begin(rt: &HostRuntime) -> Progress {
    Progress {
        terminal: find_terminal(rt),
        read: 0,
        left: STEP,
    }
}

// The line, over the one that stands there.
fn put_line(read: usize, out: &mut [u8]) -> usize {
    let mut at = copy_front(b"\r", out);
    at += put_decimal(read / MEBIBYTE, &mut out[at..]);
    at += copy_front(b" MiB read", &mut out[at..]);
    at
}

fn show(rt: &HostRuntime, terminal: Terminal, read: usize) {
    let mut line = [0u8; 40];
    let n = put_line(read, &mut line);
    write(rt, terminal, front(&line, n));
}

// So many bytes more are read.
pub(crate) fn go_on(rt: &HostRuntime, p: Progress, more: usize) -> Progress {
    let Some(terminal) = p.terminal else {
        return p;
    };
    let Some(read) = p.read.checked_add(more) else {
        return p;
    };
    if more < p.left {
        return Progress {
            read,
            left: p.left - more,
            ..p
        };
    }
    show(rt, terminal, read);
    Progress {
        read,
        left: STEP,
        ..p
    }
}

// Ends the line, if one stands there.
pub(crate) fn end(rt: &HostRuntime, p: Progress) {
    if let Some(terminal) = p.terminal {
        if STEP <= p.read {
            write(rt, terminal, b"\n");
        }
    }
}
