// The header of a job file: a mark of three letters and a version.
ghost use Rattle.std.specs.Prelude.{◌≡◌, ◌≤◌, length};
ghost use Rattle.job.specs.Header.{lacks_mark, version_number_in, HeaderRead};
ghost use Rattle.job.specs.declared.header.HeaderError.TheVariants.{UnknownVersion as Unknown};

use crate::cursor::Cursor;
use job_fields::version::{UnknownVersion, Version};
use job_fields::word::read_u16;

// The first bytes of a job file.
pub const MARK: [u8; 3] = *b"TSJ";

// What a header says, and where the first record is.
#[derive(Clone, Copy, Debug, PartialEq, Eq, Drop)]
pub struct Header {
    pub version: Version,
    pub next: Cursor,
}

// Why a header is refused.
#[derive(Clone, Copy, Debug, PartialEq, Eq, Drop)]
pub enum HeaderError {
    NotAJob,
    UnknownVersion,
}

impl From<UnknownVersion> for HeaderError {
    ghost from_gives = { λ _ error. error ≡ Unknown };

    fn from(_unknown: UnknownVersion) -> HeaderError {
        HeaderError::UnknownVersion
    }
}

// Whether the file is too short for a header of five bytes, or does not begin with the mark.
pub fn lacks_mark(bytes: &[u8], mark: &[u8; 3]) -> bool
    ensures { result ≡ lacks_mark mark.now bytes.now }
{
    bytes.len() < 5 || !bytes.starts_with(mark)
}

// Returns the number of the version, which follows the mark.
pub fn read_version(bytes: &[u8]) -> u16
    requires { 5 ≤ length bytes.now }
    ensures { result ≡ version_number_in bytes.now }
{
    read_u16(bytes, 3)
}

pub fn read_header(bytes: &[u8]) -> Result<Header, HeaderError>
    ensures { HeaderRead bytes.now result }
{
    if lacks_mark(bytes, &MARK) {
        return Err(HeaderError::NotAJob);
    }
    let number = u32::from(read_version(bytes));
    let version = Version::try_from(number)?;
    let next = Cursor { at: 5 };
    Ok(Header { version, next })
}
