// The text for what is at a record's place in a job.
ghost use Rattle.std.specs.Prelude.{◌≡◌, ◌+◌, ◌≤◌, length};
ghost use Rattle.buffer.specs.Over.{Wrote};
ghost use Rattle.job.specs.Patches.{patch_of};
ghost use Rattle.patch_text.specs.Answers.{record_text};
ghost use Rattle.job_record_text.specs.Replies.{record_reply, goes_on};
ghost use Rattle.patch_text.specs.Room.{room, FullSize};

use job::next::{FoundRecord, RecordError};
use job::record::Record;
use patch_text::answer::put_patch;

// Draws a record into full-size lists, and writes the text.
fn put_record(
    out: &mut [u8],
    at: usize,
    record: Record,
    vertices: &mut [u32],
    indices: &mut [u16],
) -> usize
    requires full_size { FullSize (length vertices.old) (length indices.old) }
    requires room_left { at + room ≤ length out.old }
    ensures { Wrote out.old at (record_text «record».settings (patch_of «record»)) out.new result }
{
    let patch = job::record::patch_of(record);
    let settings = job::record::settings_of(record);
    put_patch(out, at, patch, settings, vertices, indices)
}

// Writes the text for a record, or for the answer in its place.
pub fn put_reply(
    out: &mut [u8],
    at: usize,
    found: Result<Option<FoundRecord>, RecordError>,
    vertices: &mut [u32],
    indices: &mut [u16],
) -> usize
    requires full_size { FullSize (length vertices.old) (length indices.old) }
    requires room_left { at + room ≤ length out.old }
    ensures { Wrote out.old at (record_reply found) out.new result }
{
    match found {
        Ok(Some(there)) => put_record(out, at, there.record, vertices, indices),
        Ok(None) => at,
        Err(RecordError::CutRecord) => decimal_text::put_refused(out, at, 7),
        Err(RecordError::UnknownSetting { .. }) => decimal_text::put_refused(out, at, 8),
    }
}

// Returns where reading continues, in bytes that end at `end`.
pub fn next_place(found: Result<Option<FoundRecord>, RecordError>, end: usize) -> usize
    ensures { result ≡ goes_on end found }
{
    match found {
        Ok(Some(there)) => there.next.at,
        Err(RecordError::UnknownSetting { next, .. }) => next.at,
        Ok(None) | Err(RecordError::CutRecord) => end,
    }
}
