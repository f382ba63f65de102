// The top level of a record: which versions can hold it, and its byte.
ghost use Rattle.std.specs.Prelude.{◌≡◌, true, ◌+◌, ◌≤◌, length};
ghost use Rattle.buffer.specs.Over.{Wrote};
ghost use Rattle.job_bytes.specs.Written.{takes_top, top_bytes};

use buffer::put_all;
use job_fields::version::Version;
use level::is_top;

// Whether the version can hold the top level; version 1 has no byte for it and means 64.
pub fn takes_top(version: Version, top: u32) -> bool
    ensures { result ≡ takes_top version top }
{
    match version {
        Version::One => top == 64,
        Version::Two => is_top(top),
    }
}

pub(crate) fn put_top(out: &mut [u8], at: usize, version: Version, top: u32) -> usize
    requires top_value { takes_top version top ≡ true }
    requires top_in_bounds { at + length (top_bytes version top) ≤ length out.old }
    ensures { Wrote out.old at (top_bytes version top) out.new result }
{
    match version {
        Version::One => at,
        Version::Two => put_all(out, at, &[top as u8]),
    }
}
