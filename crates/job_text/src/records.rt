// The text for the records of a job.
ghost use Rattle.std.specs.Prelude.{◌≤◌, length};
ghost use Rattle.job_text.specs.Reported.{Reported};
ghost use Rattle.patch_text.specs.Room.{room, FullSize};

use job::cursor::Cursor;
use job::next::read_record;
use job_fields::version::Version;
use job_record_text::reply::{next_place, put_reply};

// The most bytes of one record's text.
const ROOM: usize = 286909;

// How many bytes of text were written, and where the next record is.
#[derive(Clone, Copy, Drop)]
pub struct Progress {
    pub written: usize,
    pub next: usize,
}

// Writes the text for the records from a place on, to the front of `out`, as long as the next one is sure to fit.
pub fn put_records(
    out: &mut [u8],
    bytes: &[u8],
    version: Version,
    from: usize,
    vertices: &mut [u32],
    indices: &mut [u16],
) -> Progress
    requires full_size { FullSize (length vertices.old) (length indices.old) }
    requires room_left { room ≤ length out.old }
    ensures { Reported version bytes.now from out.new result }
{
    let most = out.len() - ROOM;
    let mut written = 0;
    let mut at = from;
    // Kept: where the next record begins, and whether another fits, is known only after a record is answered, so no range counts them.
    while at < bytes.len() && written <= most {
        let found = read_record(bytes, version, Cursor { at });
        written = put_reply(out, written, found, vertices, indices);
        at = next_place(found, bytes.len());
    }
    Progress { written, next: at }
}
