// The entries of a recording, chunk after chunk.
ghost use Rattle.std.specs.Prelude.{◌≡◌, length};
ghost use Rattle.patch_text.specs.Room.{FullSize};
ghost use Rattle.replay.specs.Replays.{Countable};
ghost use Rattle.tsr_run.specs.Rests.{replay_stopped_at, ReplayedChunks, ReplayedRest};

use replay::answer::ReplayFailure;
use standard_streams::{Input, Streams};
use tsr_pieces::piece::{is_open, replay_chunk};

// A proved loop has to end, and the input need not: after more than this many bytes no further chunk is read. The count of entries cannot
// overflow before that.
const MOST: usize = 9223372036854775808;

// How many bytes were read in all, the last read, and the answer.
#[derive(Clone, Copy, Drop)]
pub struct Replayed {
    pub read: usize,
    pub last: Input,
    pub answer: Result<u64, ReplayFailure>,
}

// The result of a run that stopped after these bytes, with no read that failed.
fn stopped(read: usize, answer: Result<u64, ReplayFailure>) -> Replayed
    ensures { result ≡ replay_stopped_at read answer }
{
    let last = Input {
        count: 0,
        failed: false,
    };
    Replayed { read, last, answer }
}

// Reads and replays chunks until one is not full, an entry differs or a read fails.
fn replay_chunks(
    streams: &Streams,
    bytes: &mut [u8],
    start: Result<u64, ReplayFailure>,
    vertices: &mut [u32],
    indices: &mut [u16],
) -> Replayed
    requires full_size { FullSize (length vertices.old) (length indices.old) }
    requires chunk_room { length bytes.old ≡ 8704 }
    requires countable { Countable start 18446744073709551615 }
    ensures { ReplayedChunks start bytes.new result }
{
    let mut so_far = start;
    let mut read = 0;
    // Kept: how many bytes a chunk has is known only after its read.
    while read <= MOST {
        let piece = replay_chunk(streams, bytes, so_far, vertices, indices);
        read += piece.input.count;
        so_far = piece.so_far;
        if !piece.more {
            let last = piece.input;
            return Replayed {
                read,
                last,
                answer: so_far,
            };
        }
    }
    stopped(read, so_far)
}

// Reads and replays what follows a header: nothing if the header is refused.
pub(crate) fn replay_rest(
    streams: &Streams,
    bytes: &mut [u8],
    start: Result<u64, ReplayFailure>,
    vertices: &mut [u32],
    indices: &mut [u16],
) -> Replayed
    requires full_size { FullSize (length vertices.old) (length indices.old) }
    requires chunk_room { length bytes.old ≡ 8704 }
    requires countable { Countable start 18446744073709551615 }
    ensures { ReplayedRest start bytes.new result }
{
    if is_open(start) {
        replay_chunks(streams, bytes, start, vertices, indices)
    } else {
        stopped(0, start)
    }
}
