// Writes numbers as bytes, low byte first. Each function returns the place after what it wrote.
ghost use Rattle.std.specs.Prelude.{◌+◌, ◌≤◌, length};
ghost use Rattle.buffer.specs.Over.{Wrote};
ghost use Rattle.job_fields.specs.Bytes.{low_bytes};

use buffer::put_all;

// Kept: `to_le_bytes` is a method of each type, so one function for both would need a trait with an impl for each.
pub fn put_u16(out: &mut [u8], at: usize, number: u16) -> usize
    requires { at + 2 ≤ length out.old }
    ensures { Wrote out.old at (low_bytes 2 number) out.new result }
{
    put_all(out, at, &number.to_le_bytes())
}

pub(crate) fn put_u32(out: &mut [u8], at: usize, pattern: u32) -> usize
    requires { at + 4 ≤ length out.old }
    ensures { Wrote out.old at (low_bytes 4 pattern) out.new result }
{
    let bytes = pattern.to_le_bytes();
    put_all(out, at, &bytes)
}
