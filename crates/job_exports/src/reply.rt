// The answers to writing, and to reading a header, as numbers with a value.
ghost use Rattle.job_writer.specs.Answers.{header_code, record_code};
ghost use Rattle.call_answers.specs.Replies.{IsReply};
ghost use Rattle.job_exports.specs.Calls.{read_code};

use call_answers::reply::{Reply, bad_top, refusal, success};
use job::header::{Header, HeaderError};
use job_writer::answer::{NoRoom, RecordRefusal};

pub(crate) fn of_written_header(answer: Result<u32, NoRoom>) -> Reply
    ensures { IsReply (header_code answer) result }
{
    match answer {
        Ok(count) => success(count, 0),
        Err(NoRoom) => refusal(10),
    }
}

pub(crate) fn of_written_record(answer: Result<u32, RecordRefusal>) -> Reply
    ensures { IsReply (record_code answer) result }
{
    match answer {
        Ok(count) => success(count, 0),
        Err(RecordRefusal::NoRoom) => refusal(10),
        Err(RecordRefusal::BadTop) => bad_top(),
    }
}

// The value for 0 is the version's number.
pub(crate) fn of_header(header: Result<Header, HeaderError>) -> Reply
    ensures { IsReply (read_code header) result }
{
    match header {
        Ok(read) => success(u32::from(read.version), 0),
        Err(HeaderError::NotAJob) => refusal(5),
        Err(HeaderError::UnknownVersion) => refusal(6),
    }
}
