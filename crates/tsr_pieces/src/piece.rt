// The pieces of a recording: its header, and up to 256 entries at a time.
ghost use Rattle.std.specs.Prelude.{◌≡◌, length};
ghost use Rattle.patch_text.specs.Room.{FullSize};
ghost use Rattle.replay.specs.Replays.{Countable};
ghost use Rattle.replay.specs.Pieces.{is_open};
ghost use Rattle.tsr_pieces.specs.Pieces.{ReplayedHeader, ReplayedChunk};

use replay::answer::ReplayFailure;
use replay::recording::{go_on, read_start};
use standard_streams::{Input, Streams, read_front};

// The size of a full chunk in bytes: 256 entries.
const CHUNK: usize = 8704;

// What was read, and the answer so far.
#[derive(Clone, Copy, Drop)]
pub struct Start {
    pub input: Input,
    pub so_far: Result<u64, ReplayFailure>,
}

// What was read, the answer so far, and whether another chunk follows.
#[derive(Clone, Copy, Drop)]
pub struct Chunk {
    pub input: Input,
    pub so_far: Result<u64, ReplayFailure>,
    pub more: bool,
}

// Whether another piece can change the answer.
pub fn is_open(so_far: Result<u64, ReplayFailure>) -> bool
    ensures { result ≡ is_open so_far }
{
    so_far.is_ok()
}

// Reads the header to `header`; returns the answer after it.
pub fn replay_header(streams: &Streams, header: &mut [u8]) -> Start
    requires { length header.old ≡ 5 }
    ensures { ReplayedHeader header.new result }
{
    let input = read_front(streams, header);
    let n = input.count;
    let so_far = read_start(&header[..n]);
    Start { input, so_far }
}

// Reads a chunk to `bytes` and replays it. Another chunk follows if this one is full and its entries agree; a chunk with fewer bytes is
// the last.
pub fn replay_chunk(
    streams: &Streams,
    bytes: &mut [u8],
    so_far: Result<u64, ReplayFailure>,
    vertices: &mut [u32],
    indices: &mut [u16],
) -> Chunk
    requires full_size { FullSize (length vertices.old) (length indices.old) }
    requires chunk_room { length bytes.old ≡ 8704 }
    requires countable { Countable so_far 256 }
    ensures { ReplayedChunk so_far bytes.new result }
{
    let input = read_front(streams, bytes);
    let n = input.count;
    let next = go_on(so_far, &bytes[..n], vertices, indices);
    let more = (n == CHUNK) & is_open(next);
    Chunk {
        input,
        so_far: next,
        more,
    }
}
