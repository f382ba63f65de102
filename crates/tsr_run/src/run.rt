// From standard input to standard output, chunk by chunk. A failed read is not the end of the recording: no answer is written then. A failed
// read and a failed write are reported on standard error.
ghost use Rattle.std.specs.Prelude.{cond, [], length};
ghost use Rattle.standard_streams.specs.Moved.{Taken};
ghost use Rattle.tsr_line.specs.Sentences.{replay_line};
ghost use Rattle.tsr_run.specs.Runs.{ReplayRan};

use crate::rest::replay_rest;
use replay::answer::ReplayFailure;
use standard_streams::{Input, Output, Streams};
use tsr_line::sentence::put_replay;
use tsr_pieces::piece::replay_header;

// The read of the header, how many bytes were read after it, the last read, the answer, and how much of its line was written.
#[derive(Clone, Copy, Drop)]
pub struct ReplayOutcome {
    pub header: Input,
    pub read: usize,
    pub last: Input,
    pub answer: Result<u64, ReplayFailure>,
    pub output: Output,
}

// Writes the line of the answer.
fn write_line(streams: &mut Streams, answer: Result<u64, ReplayFailure>) -> Output
    ensures { Taken (length (replay_line answer)) result }
{
    let mut out = [0u8; 128];
    let written = put_replay(&mut out, answer);
    standard_streams::write_or_tell(
        streams,
        &out[..written],
        b"tsr: standard output could not be written\n",
    )
}

// Writes that line, or reports that a read failed.
fn say(streams: &mut Streams, failed: bool, answer: Result<u64, ReplayFailure>) -> Output
    ensures { Taken (length (cond failed [] (replay_line answer))) result }
{
    if failed {
        standard_streams::tell(streams, b"tsr: standard input could not be read\n");
        return Output {
            count: 0,
            failed: false,
        };
    }
    write_line(streams, answer)
}

// Replays the recording on standard input. It reads the header to `header` and the entries, up to 256 at a time, to the front of `bytes`, and
// draws patches into the two lists.
pub fn run(
    streams: &mut Streams,
    header: &mut [u8; 5],
    bytes: &mut [u8; 8704],
    vertices: &mut [u32; 12675],
    indices: &mut [u16; 24576],
) -> ReplayOutcome
    ensures { ReplayRan header.new bytes.new result }
{
    let start = replay_header(streams, header);
    let so_far = start.so_far;
    let rest = replay_rest(streams, bytes, so_far, vertices, indices);
    let answer = rest.answer;
    let output = say(streams, start.input.failed | rest.last.failed, answer);
    let input = start.input;
    let last = rest.last;
    ReplayOutcome {
        header: input,
        read: rest.read,
        last,
        answer,
        output,
    }
}
