// The bytes of a record of a job file: the setting bytes, then the bit patterns of its six levels.
ghost use Rattle.std.specs.Prelude.{◌≡◌, true, ◌+◌, ◌≤◌, length};
ghost use Rattle.buffer.specs.Over.{Wrote};
ghost use Rattle.job_fields.specs.Version.{record_size};
ghost use Rattle.job_bytes.specs.Written.{takes_top, level_bytes, record_bytes};

use crate::put::put_u32;
use crate::setting_bytes::put_settings;
use crate::top_byte::put_top;
use job::record::Record;
use job_fields::levels::Levels;
use job_fields::version::Version;

fn put_levels(out: &mut [u8], at: usize, bits: Levels<u32>) -> usize
    requires { at + 24 ≤ length out.old }
    ensures { Wrote out.old at (level_bytes bits) out.new result }
{
    let outer1 = put_u32(out, at, bits.outer0);
    let outer2 = put_u32(out, outer1, bits.outer1);
    let outer3 = put_u32(out, outer2, bits.outer2);
    let inner0 = put_u32(out, outer3, bits.outer3);
    let inner1 = put_u32(out, inner0, bits.inner0);
    put_u32(out, inner1, bits.inner1)
}

// Writes a record whose top level the version can hold, into a list with room for it.
pub fn put_record(out: &mut [u8], version: Version, record: Record) -> usize
    requires record_value { takes_top version «record».settings.top ≡ true }
    requires version_in_bounds { record_size version ≤ length out.old }
    ensures { Wrote out.old 0 (record_bytes version «record») out.new result }
{
    let after_settings = put_settings(out, 0, record.kind, record.settings);
    let after_top = put_top(out, after_settings, version, record.settings.top);
    put_levels(out, after_top, record.bits)
}
