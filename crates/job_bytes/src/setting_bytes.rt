// The first five setting bytes of a record.
ghost use Rattle.std.specs.Prelude.{◌+◌, ◌≤◌, length};
ghost use Rattle.buffer.specs.Over.{Wrote};
ghost use Rattle.job_bytes.specs.Written.{five_bytes};

use buffer::put_all;
use job_fields::setting::{Kind, SettingByte};
use patch::settings::Settings;

// Kind, spacing, vertex order, domain origin and point mode.
pub(crate) fn put_settings(out: &mut [u8], at: usize, kind: Kind, settings: Settings) -> usize
    requires { at + 5 ≤ length out.old }
    ensures { Wrote out.old at (five_bytes kind settings) out.new result }
{
    let bytes = [
        kind.byte(),
        settings.spacing.byte(),
        settings.order.byte(),
        settings.origin.byte(),
        settings.point_mode.byte(),
    ];
    put_all(out, at, &bytes)
}
