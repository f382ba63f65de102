// The version of a job file: its number in the header, and the length of its records.
ghost use Rattle.std.specs.Prelude.{◌≡◌};
ghost use Rattle.job_fields.specs.Version.{version_number, VersionWith, setting_bytes, record_size};

// The versions that can be read.
#[derive(Clone, Copy, Debug, PartialEq, Eq, Drop)]
pub enum Version {
    One,
    Two,
}

// A number that no version has.
#[derive(Clone, Copy, Debug, PartialEq, Eq, Drop)]
pub struct UnknownVersion;

// The number of the version in a header.
impl From<Version> for u32 {
    ghost from_gives = { λ version number. number ≡ version_number version };

    fn from(version: Version) -> u32 {
        match version {
            Version::One => 1,
            Version::Two => 2,
        }
    }
}

impl TryFrom<u32> for Version {
    type Error = UnknownVersion;

    ghost try_from_gives = { VersionWith };

    fn try_from(number: u32) -> Result<Version, UnknownVersion> {
        match number {
            1 => Ok(Version::One),
            2 => Ok(Version::Two),
            _ => Err(UnknownVersion),
        }
    }
}

// Returns how many setting bytes come before the levels of a record.
pub fn setting_bytes(version: Version) -> usize
    ensures { result ≡ setting_bytes version }
{
    match version {
        Version::One => 5,
        Version::Two => 6,
    }
}

// Returns how many bytes a record has.
pub fn record_size(version: Version) -> usize
    ensures { result ≡ record_size version }
{
    match version {
        Version::One => 29,
        Version::Two => 30,
    }
}
