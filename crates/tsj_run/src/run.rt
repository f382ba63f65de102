// From standard input to standard output, chunk by chunk. A failed read is not the end of the job: its chunk is not answered, and after it,
// or after a failed write, nothing more is read or written.
ghost use Rattle.tsj_run.specs.Runs.{JobRan};

use crate::records::{Answered, answer_rest};
use standard_streams::Streams;
use tsj_pieces::header::{Start, answer_header};

// What was read and written, for the header and for the records after it.
#[derive(Clone, Copy, Drop)]
pub struct JobOutcome {
    pub start: Start,
    pub records: Answered,
}

// Returns room for the text of the longest record, or of many short ones.
fn output_buffer() -> [u8; 524288] {
    [0; 524288]
}

// Answers the job on standard input. It reads the header to `header` and the records, up to 256 at a time, to the front of `bytes`, and draws
// patches into the two lists.
pub fn run(
    streams: &mut Streams,
    header: &mut [u8; 5],
    bytes: &mut [u8; 7680],
    vertices: &mut [u32; 12675],
    indices: &mut [u16; 24576],
) -> JobOutcome
    ensures { JobRan header.new bytes.new result }
{
    let mut out = output_buffer();
    let start = answer_header(streams, header, &mut out);
    let rest = start.rest;
    let records = answer_rest(streams, rest, bytes, &mut out, vertices, indices);
    JobOutcome { start, records }
}
