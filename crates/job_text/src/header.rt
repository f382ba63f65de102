// The text for the header of a job.
ghost use Rattle.std.specs.Prelude.{◌≡◌, ◌≤◌, length};
ghost use Rattle.buffer.specs.Over.{Wrote};
ghost use Rattle.job_text.specs.Jobs.{start_text, rest_of};

use job::header::{Header, HeaderError};
use job_fields::version::Version;

// Writes the title, or the line of a refusal.
pub fn put_header(out: &mut [u8], header: Result<Header, HeaderError>) -> usize
    requires { 19 ≤ length out.old }
    ensures { Wrote out.old 0 (start_text header) out.new result }
{
    match header {
        Ok(read) => decimal_text::put_title(out, 0, u32::from(read.version)),
        Err(HeaderError::NotAJob) => decimal_text::put_refused(out, 0, 5),
        Err(HeaderError::UnknownVersion) => decimal_text::put_refused(out, 0, 6),
    }
}

// Returns the version of the records that follow the header; none follow a header that is refused.
pub fn rest_of(header: Result<Header, HeaderError>) -> Option<Version>
    ensures { result ≡ rest_of header }
{
    header.ok().map(|read| read.version)
}
