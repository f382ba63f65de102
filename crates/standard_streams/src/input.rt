// Reads standard input.
ghost use Rattle.std.specs.Prelude.{◌+◌, ◌≤◌, length};
ghost use Rattle.standard_streams.specs.Moved.{Filled};

use crate::streams::Streams;
use std::io::{Read, Stdin};

// How many bytes were read, and whether a read failed. Fewer bytes than asked for without a failure mean that the input has ended.
// Kept: the programs count the bytes of a failed read with all others, so a Result would hold the same count in both of its variants.
#[derive(Clone, Copy, Drop)]
pub struct Input {
    pub count: usize,
    pub failed: bool,
}

// Does one read, into the bytes from `at` on.
fn read_on(stdin: &mut Stdin, bytes: &mut [u8], at: usize) -> Input
    requires { at ≤ length bytes.old }
    ensures { at + result.count ≤ length bytes.old }
{
    let rest = &mut bytes[at..];
    let got = stdin.read(rest);
    let failed = got.is_err();
    Input {
        count: got.unwrap_or(0),
        failed,
    }
}

// Reads to the front of `bytes` until it is full, the input ends or a read fails.
pub fn read_front(streams: &Streams, bytes: &mut [u8]) -> Input
    ensures { Filled (length bytes.new) bytes.new result }
{
    let mut stdin = streams.rt.stdin();
    let mut at = 0;
    // Kept: how many bytes a read takes is known only after it.
    while at < bytes.len() {
        let next = read_on(&mut stdin, bytes, at);
        if next.count == 0 {
            return Input {
                count: at,
                failed: next.failed,
            };
        }
        at += next.count;
    }
    Input {
        count: at,
        failed: false,
    }
}
