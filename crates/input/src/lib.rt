// What a program is given, and what it says where that fails: a file that an argument names, read into lent memory, and lines on standard
// error. What a file holds is the system's to say, so of the bytes nothing is promised, and of the count that it is not past the end.
#![tactic(auto)]

mod said;

ghost use Rattle.std.specs.Prelude.{◌≤◌, length, IfOk, IfSome};

pub use said::{fail, say};
use std::env::FillError;
use std::fs::File;
use std::io::Read;
use std::rt::Env;
use std::{io, str};

// The system's numbers for a name that is too long, and for one that is no text.
const TOO_LONG: i32 = 36;

const NO_TEXT: i32 = 84;

// Its number for an argument that is not there.
const INVALID: i32 = 22;

// The most bytes of a name.
const NAME: usize = 4096;

// There is an argument i; argument 0 is the program's name.
pub fn is_given(rt: &HostRuntime, i: usize) -> bool {
    let mut start = [0u8; 1];
    match rt.arg(i, &mut start) {
        Ok(_) => true,
        Err(FillError::TooLong) => true,
        Err(FillError::NotPresent) => false,
    }
}

// Reads until the end of the file or of buf. (A `while`: the system says how far each read goes.)
fn read_all(file: &mut File, buf: &mut [u8]) -> io::Result<usize>
    ensures { IfOk result (λ n. n ≤ length buf.new) }
{
    let mut at = 0;
    while at < buf.len() {
        let more = file.read(&mut buf[at..])?;
        if more == 0 {
            break;
        }
        at += more;
    }
    Ok(at)
}

// Reads the start of the file of that name, as much as buf holds.
fn read_file(rt: &HostRuntime, name: &[u8], buf: &mut [u8]) -> io::Result<usize>
    ensures { IfOk result (λ n. n ≤ length buf.new) }
{
    let Ok(path) = str::from_utf8(name) else {
        return Err(io::Error::from_raw_os_error(NO_TEXT));
    };
    let mut file = File::open(rt, path)?;
    read_all(&mut file, buf)
}

// The same. Where that fails, a line on standard error says why.
fn load_file(rt: &HostRuntime, name: &[u8], buf: &mut [u8]) -> Option<usize>
    ensures { IfSome result (λ n. n ≤ length buf.new) }
{
    match read_file(rt, name, buf) {
        Ok(n) => Some(n),
        Err(e) => {
            fail(rt, name, e);
            None
        }
    }
}

// Reads the start of the file that argument i names, as much as buf holds, and says how many bytes that is. Where that fails, a line on standard
// error says why.
pub fn load(rt: &HostRuntime, i: usize, buf: &mut [u8]) -> Option<usize>
    ensures { IfSome result (λ n. n ≤ length buf.new) }
{
    let mut name = [0u8; NAME];
    let reason = match rt.arg(i, &mut name) {
        Ok(n) => return load_file(rt, &name[..n], buf),
        Err(FillError::TooLong) => TOO_LONG,
        Err(FillError::NotPresent) => INVALID,
    };
    fail(rt, b"argument", io::Error::from_raw_os_error(reason));
    None
}
