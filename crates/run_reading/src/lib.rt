// What the programs read: files by name, and as much of an input as a buffer takes.
#![tactic(auto)]

ghost use Rattle.std.specs.Prelude.{◌<◌, IfOk, length, take};
ghost use Rattle.std.specs.Io.{ReadsAtMost};
ghost use Rattle.std.specs.Io.KnownBytes.{Consumes, IsAtEnd};

use std::io::{ErrorKind, Read};
use std::rt::Files;
use std::{fs, io, str};

// The file of that name, to be read. A name that is no text can't be opened.
pub fn open<R: Files>(rt: &R, path: &[u8]) -> io::Result<R::File> {
    let name = str::from_utf8(path).map_err(|_| io::Error::from(ErrorKind::InvalidInput))?;
    fs::open(rt, name)
}

// Reads until the buffer is full or the input ends. Answers how many bytes stand at the buffer's start.
// (A number, as `read` answers it; the caller cuts the buffer.)
pub fn fill<R: Read>(input: &mut R, buffer: &mut [u8]) -> io::Result<usize>
    ensures bound { ReadsAtMost result buffer.new }
    ensures bytes { IfOk result (λ n. Consumes (R.remaining input.old) (R.remaining input.new) (take n buffer.new)) }
    ensures end { IfOk result (λ n. n < length buffer.new → IsAtEnd (R.remaining input.new)) }
{
    let mut done = 0;
    // Stays a `while`: how far a read goes is the input's to say, and `read_exact` says no number where the input ends early.
    while done < buffer.len() {
        let n = input.read(&mut buffer[done..])?;
        if n == 0 {
            break;
        }
        done += n;
    }
    Ok(done)
}
