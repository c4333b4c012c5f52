// Lines to standard output, and bytes from standard input, with a read that fails told from the end.
//
// The output is any writer and the input any reader. Where the bytes that one holds or has left are known, the contracts say what is written and what came; of the
// streams of a process they are not known.
#![tactic(auto)]

ghost use Rattle.std.specs.Prelude.{false, ◌≡◌, ◌≤◌, length, IsTrue};
ghost use Rattle.std.specs.Io.KnownBytes.{Appends};
ghost use Rattle.console.specs.Takes.{Takes, Fills, Passes};

use std::io::{Read, Write};

// Writes a line, and tells whether all of it was written.
pub fn print<W: Write>(out: &mut W, line: &[u8]) -> bool
    ensures { IsTrue result → Appends (W.contents out.old) (W.contents out.new) line.now }
{
    out.write_all(line).is_ok()
}

// Why not all of the bytes that were asked for came.
#[derive(Clone, Copy, Debug, PartialEq, Eq)]
pub enum Shortfall {
    // So many came, fewer than were asked for, and then the input ended.
    Part(usize),
    // A read failed.
    Failed,
}

// Reads until the buffer is full, the input ends or a read fails. By `read`, since `read_exact` does not tell how many bytes came.
pub fn take<R: Read>(input: &mut R, buf: &mut [u8]) -> Result<(), Shortfall>
    ensures told { Takes (length buf.old) result }
    ensures bytes { Fills (R.remaining input.old) (R.remaining input.new) buf.new result }
{
    let mut done = 0;
    while done < buf.len() {
        match input.read(&mut buf[done..]) {
            Ok(0) => return Err(Shortfall::Part(done)),
            Ok(n) => done += n,
            Err(_) => return Err(Shortfall::Failed),
        }
    }
    Ok(())
}

// Passes over at most 4,096 bytes.
fn skip_few<R: Read>(input: &mut R, few: usize) -> Result<(), Shortfall>
    requires { few ≤ 4096 }
    ensures told { Takes few result }
    ensures bytes { Passes few (R.remaining input.old) (R.remaining input.new) result }
{
    let mut buf = [0u8; 4096];
    take(input, &mut buf[..few])
}

// Passes over so many bytes. `left` counts down, since a range in steps of a buffer would still cut its last step short.
pub fn skip<R: Read>(input: &mut R, length: usize) -> Result<(), Shortfall>
    ensures told { Takes length result }
    ensures bytes { Passes length (R.remaining input.old) (R.remaining input.new) result }
{
    let mut left = length;
    while 0 < left {
        let few = left.min(4096);
        match skip_few(input, few) {
            Ok(()) => left -= few,
            Err(Shortfall::Part(got)) => return Err(Shortfall::Part(length - left + got)),
            Err(Shortfall::Failed) => return Err(Shortfall::Failed),
        }
    }
    Ok(())
}

// What did not come whole is told, and nothing follows it.
pub fn stop<W: Write, T: Drop>(out: &mut W, taken: Result<T, Shortfall>) -> bool
    ensures { result ≡ false }
{
    match taken {
        Ok(_) => {}
        Err(Shortfall::Part(_)) => {
            print(out, b"cut\n");
        }
        Err(Shortfall::Failed) => {
            print(out, b"unreadable\n");
        }
    }
    false
}
