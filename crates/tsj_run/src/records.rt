// The records of a job, chunk after chunk.
ghost use Rattle.std.specs.Prelude.{◌≡◌, ◌≤◌, length, Some};
ghost use Rattle.patch_text.specs.Room.{room, FullSize};
ghost use Rattle.tsj_run.specs.Rests.{job_stopped_at, AnsweredRest};

use job_fields::version::Version;
use standard_streams::{Input, Output, Streams};
use tsj_pieces::chunk::answer_chunk;

// A proved loop has to end, and the input need not: after more than this many bytes were read or written, no further chunk is read.
const MOST: usize = 9223372036854775808;

// How many bytes were read in all, the last read, and how much text was written.
#[derive(Clone, Copy, Drop)]
pub struct Answered {
    pub read: usize,
    pub last: Input,
    pub output: Output,
}

// The result of a run that stopped after these counts, with no read that failed.
fn stopped(read: usize, written: usize) -> Answered
    ensures { result ≡ job_stopped_at read written }
{
    let last = Input {
        count: 0,
        failed: false,
    };
    let output = Output {
        count: written,
        failed: false,
    };
    Answered { read, last, output }
}

// Reads and answers chunks until one is not full, or a read or a write fails.
fn answer_chunks(
    streams: &mut Streams,
    bytes: &mut [u8],
    out: &mut [u8],
    version: Version,
    vertices: &mut [u32],
    indices: &mut [u16],
) -> Answered
    requires full_size { FullSize (length vertices.old) (length indices.old) }
    requires room_in_bounds { (room ≤ length out.old) × (length out.old ≤ 524288) × (7680 ≤ length bytes.old) }
    ensures { AnsweredRest (Some version) bytes.new result }
{
    let mut read = 0;
    let mut written = 0;
    // Kept: a chunk may have any number of bytes and of text, so no range counts either.
    while (read <= MOST) & (written <= MOST) {
        let piece = answer_chunk(streams, bytes, out, version, vertices, indices);
        read += piece.input.count;
        written += piece.output.count;
        if !piece.more {
            let last = piece.input;
            let output = Output {
                count: written,
                failed: piece.output.failed,
            };
            return Answered { read, last, output };
        }
    }
    stopped(read, written)
}

// Reads and answers what follows a header.
pub(crate) fn answer_rest(
    streams: &mut Streams,
    rest: Option<Version>,
    bytes: &mut [u8],
    out: &mut [u8],
    vertices: &mut [u32],
    indices: &mut [u16],
) -> Answered
    requires full_size { FullSize (length vertices.old) (length indices.old) }
    requires room_in_bounds { (room ≤ length out.old) × (length out.old ≤ 524288) × (7680 ≤ length bytes.old) }
    ensures { AnsweredRest rest bytes.new result }
{
    match rest {
        Some(version) => answer_chunks(streams, bytes, out, version, vertices, indices),
        None => stopped(0, 0),
    }
}
