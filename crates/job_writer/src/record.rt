// Writes a record of a job file, or refuses.
ghost use Rattle.job_writer.specs.Answers.{WroteRecord};

use crate::answer::RecordRefusal;
use job::record::Record;
use job_bytes::record_bytes::put_record;
use job_bytes::top_byte::takes_top;
use job_fields::version::{Version, record_size};

// Writes a record, and returns the number of bytes at the front; a bad top level comes before a list that is too short.
pub fn write_record(out: &mut [u8], version: Version, record: Record) -> Result<u32, RecordRefusal>
    ensures { WroteRecord version «record» out.old out.new result }
{
    if !takes_top(version, record.settings.top) {
        return Err(RecordRefusal::BadTop);
    }
    if out.len() < record_size(version) {
        return Err(RecordRefusal::NoRoom);
    }
    let count = put_record(out, version, record);
    Ok(count as u32)
}
