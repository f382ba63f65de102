// The record at a cursor.
ghost use Rattle.std.specs.Prelude.{◌≡◌, ◌+◌, ◌≤◌, length};
ghost use Rattle.job.specs.Records.{record_of, RecordRead};
ghost use Rattle.job_fields.specs.Version.{record_size};

use crate::cursor::Cursor;
use crate::record::Record;
use job_fields::levels::{levels_of, read_bits};
use job_fields::setting::{Kind, SettingByte, read_settings};
use job_fields::top::{read_top, unknown_place};
use job_fields::version::{Version, record_size, setting_bytes};

// A record, and the cursor after it.
#[derive(Clone, Copy, Drop)]
pub struct FoundRecord {
    pub record: Record,
    pub next: Cursor,
}

// Why there is no record at a cursor though bytes are left.
#[derive(Clone, Copy, Debug, PartialEq, Eq, Drop)]
pub enum RecordError {
    CutRecord,
    // The place of the first setting byte that is out of range, 0 to 4 in version 1, 0 to 5 in version 2, and the cursor after the record.
    UnknownSetting { place: usize, next: Cursor },
}

// Reads a record whose setting bytes are in range.
fn read_whole(bytes: &[u8], version: Version, at: usize) -> Record
    requires { at + record_size version ≤ length bytes.now }
    ensures { result ≡ record_of version bytes.now at }
{
    let kind = Kind::of_byte(bytes[at]);
    let top = read_top(bytes, version, at);
    let settings = read_settings(bytes, at, top);
    let bits = read_bits(bytes, at + setting_bytes(version));
    let levels = levels_of(bits);
    Record {
        kind,
        settings,
        levels,
        bits,
    }
}

// Reads the record at a cursor, in a file of the given version; at the end there is none.
pub fn read_record(
    bytes: &[u8],
    version: Version,
    cursor: Cursor,
) -> Result<Option<FoundRecord>, RecordError>
    ensures { RecordRead version bytes.now cursor.at result }
{
    let at = cursor.at;
    if bytes.len() <= at {
        return Ok(None);
    }
    let size = record_size(version);
    if bytes.len() - at < size {
        return Err(RecordError::CutRecord);
    }
    let next = Cursor { at: at + size };
    let place = unknown_place(bytes, version, at);
    if place < setting_bytes(version) {
        return Err(RecordError::UnknownSetting { place, next });
    }
    let record = read_whole(bytes, version, at);
    Ok(Some(FoundRecord { record, next }))
}
