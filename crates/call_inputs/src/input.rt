// The top level and the patch that a caller's setting bytes and levels describe.
ghost use Rattle.std.specs.Prelude.{◌≡◌, ◌≤◌, length};
ghost use Rattle.call_inputs.specs.Inputs.{top_in, patch_in};

use job_fields::setting::{Kind, SettingByte};
use patch::kinds::Patch;

// Returns the top level, good or bad.
pub fn top_in(settings: &[u8]) -> u32
    requires { 6 ≤ length settings.now }
    ensures { result ≡ top_in settings.now }
{
    settings[5] as u32
}

pub fn patch_in(settings: &[u8; 6], levels: &[f32; 6]) -> Patch
    ensures { result ≡ patch_in settings.now levels.now }
{
    let kind = Kind::of_byte(settings[0]);
    match kind {
        Kind::Triangles => Patch::Triangles {
            outer0: levels[0],
            outer1: levels[1],
            outer2: levels[2],
            inner0: levels[4],
        },
        Kind::Quads => Patch::Quads {
            outer0: levels[0],
            outer1: levels[1],
            outer2: levels[2],
            outer3: levels[3],
            inner0: levels[4],
            inner1: levels[5],
        },
        Kind::Isolines => Patch::Isolines {
            outer0: levels[0],
            outer1: levels[1],
        },
    }
}
