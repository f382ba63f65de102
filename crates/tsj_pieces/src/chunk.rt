// A chunk of a job: up to 256 records, read and answered.
ghost use Rattle.std.specs.Prelude.{◌≡◌, ◌*◌, ◌≤◌, length};
ghost use Rattle.job_fields.specs.Version.{record_size};
ghost use Rattle.job_text.specs.Jobs.{answers_from};
ghost use Rattle.patch_text.specs.Room.{room, FullSize};
ghost use Rattle.standard_streams.specs.Moved.{Taken};
ghost use Rattle.tsj_pieces.specs.Chunks.{AnsweredSome, AnsweredChunk};

use crate::failures::{read_or_tell, write_or_tell};
use job_fields::version::{Version, record_size};
use job_text::records::{Progress, put_records};
use standard_streams::{Input, Output, Streams};

// How far the records are answered, and how much of their text was written.
#[derive(Clone, Copy, Drop)]
pub struct Step {
    pub progress: Progress,
    pub output: Output,
}

// What was read and written, and whether another chunk follows.
#[derive(Clone, Copy, Drop)]
pub struct Chunk {
    pub input: Input,
    pub output: Output,
    pub more: bool,
}

// Answers the records from place `at` of `bytes` on, as many as fit into `out`.
fn answer_some(
    streams: &mut Streams,
    bytes: &[u8],
    at: usize,
    version: Version,
    out: &mut [u8],
    vertices: &mut [u32],
    indices: &mut [u16],
) -> Step
    requires full_size { FullSize (length vertices.old) (length indices.old) }
    requires room_left { room ≤ length out.old }
    ensures { AnsweredSome version bytes.now at out.new result }
{
    let progress = put_records(out, bytes, version, at, vertices, indices);
    let written = progress.written;
    let output = write_or_tell(streams, &out[..written]);
    Step { progress, output }
}

// Answers every record of `bytes`, up to a write that fails.
fn answer_records(
    streams: &mut Streams,
    out: &mut [u8],
    bytes: &[u8],
    version: Version,
    vertices: &mut [u32],
    indices: &mut [u16],
) -> Output
    requires full_size { FullSize (length vertices.old) (length indices.old) }
    requires room_in_bounds { (room ≤ length out.old) × (length out.old ≤ 524288) × (length bytes.now ≤ 7680) }
    ensures taken { Taken (length (answers_from version bytes.now 0)) result }
    ensures count_bound { result.count ≤ 4026531840 }
{
    let mut count = 0;
    let mut at = 0;
    // Kept: how many records a pass answers is known only after it, so no range counts the places.
    while at < bytes.len() {
        let step = answer_some(streams, bytes, at, version, out, vertices, indices);
        count += step.output.count;
        if step.output.failed {
            return Output {
                count,
                failed: true,
            };
        }
        at = step.progress.next;
    }
    Output {
        count,
        failed: false,
    }
}

// Returns the size of a full chunk in bytes: 256 whole records.
fn chunk_size(version: Version) -> usize
    ensures { (result ≡ record_size version * 256) × (result ≤ 7680) }
{
    record_size(version) * 256
}

// Reads a chunk to the front of `bytes` and answers it. If the read fails, nothing is written. Another chunk follows if this one is full and
// was written; a chunk with fewer bytes is the last.
pub fn answer_chunk(
    streams: &mut Streams,
    bytes: &mut [u8],
    out: &mut [u8],
    version: Version,
    vertices: &mut [u32],
    indices: &mut [u16],
) -> Chunk
    requires full_size { FullSize (length vertices.old) (length indices.old) }
    requires room_in_bounds { (room ≤ length out.old) × (length out.old ≤ 524288) × (7680 ≤ length bytes.old) }
    ensures { AnsweredChunk version bytes.new result }
{
    let size = chunk_size(version);
    let input = read_or_tell(streams, bytes, size);
    if input.failed {
        let output = Output {
            count: 0,
            failed: false,
        };
        return Chunk {
            input,
            output,
            more: false,
        };
    }
    let n = input.count;
    let output = answer_records(streams, out, &bytes[..n], version, vertices, indices);
    let more = (n == size) & !output.failed;
    Chunk {
        input,
        output,
        more,
    }
}
