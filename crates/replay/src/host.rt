// The records of the registers: a reset, a write, a data read, each through the interrupt routine.
use crate::bench::{Bad, Bench};
use crate::task::{put_read, put_reset, put_wrote};
use registers::{Answer, interrupt_on};
use taskfile::TaskFile;
use taskfile::host::{COMMAND, COUNT_HIGH, COUNT_LOW, DATA, DRIVE, FEATURES, READ, RESET};

// The line of an access, by its kind.
fn put_access(kind: u8, f: TaskFile, a: Answer, memory: &[u8], line: &mut [u8]) -> usize {
    match kind {
        21 => put_reset(f, a, line),
        22 => put_wrote(f, a, memory, line),
        _ => put_read(f, a, memory, line),
    }
}

// A register that the host may write.
fn is_register(r: u8) -> bool {
    matches!(
        r,
        DATA | FEATURES | COUNT_LOW | COUNT_HIGH | DRIVE | COMMAND
    )
}

impl Bench {
    // An access, with the table and the memory as they are lent.
    fn call_access(&mut self, kind: u8, access: u8, value: u8, line: &mut [u8]) -> usize {
        let lent = self.memory.part();
        let s = interrupt_on(
            self.file,
            access,
            value,
            self.drive,
            self.table.shown(),
            lent,
        );
        let a = s.answer;
        self.drive = a.state;
        self.file = s.file;
        put_access(kind, s.file, a, lent, line)
    }

    // Kind 21: a reset; kind 22: a write of a register; kind 23: a data read.
    pub(crate) fn call_host(
        &mut self,
        kind: u8,
        body: &[u8],
        line: &mut [u8],
    ) -> Result<usize, Bad> {
        if kind == 22 {
            if body.len() == 2 && is_register(body[0]) {
                return Ok(self.call_access(22, body[0], body[1], line));
            }
            return Err(Bad);
        }
        if body.len() == 0 {
            if kind == 21 {
                return Ok(self.call_access(21, RESET, 0, line));
            }
            return Ok(self.call_access(23, READ, 0, line));
        }
        Err(Bad)
    }
}
