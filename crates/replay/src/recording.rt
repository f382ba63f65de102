// A recording: a header of five bytes, then entries of 34 bytes. It is replayed as a whole, or piece by piece.
ghost use Rattle.std.specs.Prelude.{◌≡◌, ◌+◌, ◌/◌, ◌≤◌, length};
ghost use Rattle.patch_text.specs.Room.{FullSize};
ghost use Rattle.replay.specs.Means.{ReplaySaid};
ghost use Rattle.replay.specs.Replays.{replay_start, entries_from, go_on, Countable};

use crate::answer::ReplayFailure;
use job::header::{lacks_mark, read_version};
use replay_entry::entry::{read_recorded, replay_record};
use replay_entry::outcome::same_outcome;

// The first bytes of a recording, and the only version that is read.
pub const MARK: [u8; 3] = *b"TSR";

const VERSION: u16 = 1;

// The size of an entry in bytes.
const ENTRY: usize = 34;

// Returns the answer after the header: 0 entries that all agree, or the refusal.
pub fn read_start(bytes: &[u8]) -> Result<u64, ReplayFailure>
    ensures { result ≡ replay_start bytes.now }
{
    if lacks_mark(bytes, &MARK) {
        return Err(ReplayFailure::NotARecording);
    }
    if read_version(bytes) != VERSION {
        return Err(ReplayFailure::UnknownVersion);
    }
    Ok(0)
}

// Replays the entries from number `first` on; a cut entry is reported only if all entries before it agree.
fn replay_entries(
    bytes: &[u8],
    first: u64,
    vertices: &mut [u32],
    indices: &mut [u16],
) -> Result<u64, ReplayFailure>
    requires full_size { FullSize (length vertices.old) (length indices.old) }
    requires countable { first + length bytes.now / 34 ≤ 18446744073709551615 }
    ensures { result ≡ entries_from first bytes.now }
{
    let whole = bytes.len() / ENTRY;
    for k in 0..whole {
        let at = k * ENTRY;
        let part = &bytes[at..at + ENTRY];
        let recorded = read_recorded(part);
        let replayed = replay_record(part, vertices, indices);
        if !same_outcome(recorded, replayed) {
            return Err(ReplayFailure::Differs {
                entry: first + k as u64,
                recorded,
                replayed,
            });
        }
    }
    if bytes.len() % ENTRY != 0 {
        return Err(ReplayFailure::CutEntry);
    }
    Ok(first + whole as u64)
}

// Replays the next piece of a recording; it changes the answer only if all entries so far agree.
pub fn go_on(
    so_far: Result<u64, ReplayFailure>,
    bytes: &[u8],
    vertices: &mut [u32],
    indices: &mut [u16],
) -> Result<u64, ReplayFailure>
    requires full_size { FullSize (length vertices.old) (length indices.old) }
    requires countable { Countable so_far (length bytes.now / 34) }
    ensures { result ≡ go_on so_far bytes.now }
{
    match so_far {
        Ok(entries) => replay_entries(bytes, entries, vertices, indices),
        Err(_) => so_far,
    }
}

// Replays a whole recording; returns the number of its entries, which all agree.
pub fn replay(bytes: &[u8]) -> Result<u64, ReplayFailure>
    ensures { ReplaySaid bytes.now result }
{
    if bytes.len() < 5 {
        return Err(ReplayFailure::NotARecording);
    }
    let mut vertices: [u32; 12675] = [0; 12675];
    let mut indices: [u16; 24576] = [0; 24576];
    let start = read_start(bytes);
    go_on(start, &bytes[5..], &mut vertices, &mut indices)
}
