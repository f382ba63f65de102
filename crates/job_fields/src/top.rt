// The top level of a record; version 2 has a sixth setting byte for it.
ghost use Rattle.std.specs.Prelude.{◌≡◌, ◌+◌, ◌≤◌, length};
ghost use Rattle.job_fields.specs.Tops.{top_at, unknown_place};
ghost use Rattle.job_fields.specs.Version.{record_size};

use crate::setting::first_unknown;
use crate::version::Version;
use level::is_top;

// Returns 64 in version 1, and setting byte 5 in version 2.
pub fn read_top(bytes: &[u8], version: Version, at: usize) -> u32
    requires { at + record_size version ≤ length bytes.now }
    ensures { result ≡ top_at version bytes.now at }
{
    match version {
        Version::One => 64,
        Version::Two => bytes[at + 5] as u32,
    }
}

// Returns the place of the first setting byte that is out of range, or the number of setting bytes.
pub fn unknown_place(bytes: &[u8], version: Version, at: usize) -> usize
    requires { at + record_size version ≤ length bytes.now }
    ensures { result ≡ unknown_place version bytes.now at }
{
    let place = first_unknown(bytes, at);
    match version {
        Version::One => place,
        Version::Two => {
            if place < 5 {
                place
            } else if is_top(read_top(bytes, version, at)) {
                6
            } else {
                5
            }
        }
    }
}
