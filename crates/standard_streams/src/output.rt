// Writes to standard output and standard error.
ghost use Rattle.std.specs.Prelude.{◌+◌, ◌≤◌, length};
ghost use Rattle.standard_streams.specs.Moved.{Taken};

use crate::streams::Streams;
use std::io::{ErrorKind, Write};

// How many bytes were written, and whether a write failed, so that some are missing.
// Kept: the programs count the bytes of a failed write with all others, so a Result would hold the same count in both of its variants.
#[derive(Clone, Copy, Drop)]
pub struct Output {
    pub count: usize,
    pub failed: bool,
}

// Does one write, of the bytes from `at` on; returns how many bytes it took, and notes where nobody reads them any more.
fn write_on<W: Write>(file: &mut W, is_closed: &mut bool, bytes: &[u8], at: usize) -> usize
    requires { at ≤ length bytes.now }
    ensures { at + result ≤ length bytes.now }
{
    let rest = &bytes[at..];
    match file.write(rest) {
        Ok(count) => count,
        Err(error) => {
            *is_closed = error.kind() == ErrorKind::BrokenPipe;
            0
        }
    }
}

// Writes until all of `bytes` is taken or a write takes no byte.
fn write_front<W: Write>(file: &mut W, is_closed: &mut bool, bytes: &[u8]) -> Output
    ensures { Taken (length bytes.now) result }
{
    let mut at = 0;
    // Kept: how many bytes a write takes is known only after it.
    while at < bytes.len() {
        let next = write_on(file, is_closed, bytes, at);
        if next == 0 {
            return Output {
                count: at,
                failed: true,
            };
        }
        at += next;
    }
    Output {
        count: at,
        failed: false,
    }
}

// Writes a line to standard error.
pub fn tell(streams: &Streams, line: &[u8]) -> Output
    ensures { Taken (length line.now) result }
{
    let mut is_closed = false;
    write_front(&mut streams.rt.stderr(), &mut is_closed, line)
}

// Writes `bytes` to standard output; if that fails, writes a line to standard error, unless nobody reads standard output any more.
pub fn write_or_tell(streams: &mut Streams, bytes: &[u8], line: &[u8]) -> Output
    ensures { Taken (length bytes.now) result }
{
    let mut stdout = streams.rt.stdout();
    let output = write_front(&mut stdout, &mut streams.is_closed, bytes);
    if output.failed & !streams.is_closed {
        tell(streams, line);
    }
    output
}
