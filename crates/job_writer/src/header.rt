// Writes the header of a job file.
ghost use Rattle.job_writer.specs.Answers.{WroteHeader};

use crate::answer::NoRoom;
use buffer::put_all;
use job::header::MARK;
use job_bytes::put::put_u16;
use job_fields::version::Version;

// Writes the mark that reading looks for, and the version's number. Returns the number of bytes at the front.
pub fn write_header(out: &mut [u8], version: Version) -> Result<u32, NoRoom>
    ensures { WroteHeader version out.old out.new result }
{
    if out.len() < 5 {
        return Err(NoRoom);
    }
    let number = u32::from(version) as u16;
    let next = put_all(out, 0, &MARK);
    let count = put_u16(out, next, number);
    Ok(count as u32)
}
