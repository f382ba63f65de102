// Reads and answers the header of a job.
ghost use Rattle.std.specs.Prelude.{◌≡◌, ◌≤◌, length, take};
ghost use Rattle.patch_text.specs.Room.{room};
ghost use Rattle.tsj_pieces.specs.Headers.{header_text, AnsweredHeader};

use crate::failures::{read_or_tell, write_or_tell};
use job::header::read_header;
use job_fields::version::Version;
use job_text::header::{put_header, rest_of};
use standard_streams::{Input, Output, Streams};

// What was read and written, and the version of the records to read next: none if the read or the write failed.
#[derive(Clone, Copy, Drop)]
pub struct Start {
    pub input: Input,
    pub output: Output,
    pub rest: Option<Version>,
}

// Reads the header to the front of `header`, and writes its answer, which is at the front of `out`. If the read fails, nothing is written.
pub fn answer_header(streams: &mut Streams, header: &mut [u8], out: &mut [u8]) -> Start
    requires header_in_bounds { 5 ≤ length header.old }
    requires room_left { room ≤ length out.old }
    ensures answered_header { AnsweredHeader header.new result }
    ensures out_after { take (length (header_text header.new result.input)) out.new ≡ header_text header.new result.input }
{
    let input = read_or_tell(streams, header, 5);
    if input.failed {
        let output = Output {
            count: 0,
            failed: false,
        };
        return Start {
            input,
            output,
            rest: None,
        };
    }
    let n = input.count;
    let found = read_header(&header[..n]);
    let written = put_header(out, found);
    let output = write_or_tell(streams, &out[..written]);
    if output.failed {
        return Start {
            input,
            output,
            rest: None,
        };
    }
    let rest = rest_of(found);
    Start {
        input,
        output,
        rest,
    }
}
