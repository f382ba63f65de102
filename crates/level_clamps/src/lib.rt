// Where the levels of a patch lie relative to the range of their spacing.
#![tactic(auto)]

ghost use Rattle.std.specs.Prelude.{◌≡◌};
ghost use Rattle.level.specs.Top.{Top};
ghost use Rattle.level.specs.Clamp.{clamp_of};
ghost use Rattle.level_clamps.specs.Clamps.{clamps_of};

use level::{Clamp, Spacing};
use patch::kinds::Patch;

// Where each level that counts lies; the fields are named as in `Patch`.
#[derive(Clone, Copy, Drop)]
pub enum Clamps {
    Triangles {
        outer0: Clamp,
        outer1: Clamp,
        outer2: Clamp,
        inner0: Clamp,
    },
    Quads {
        outer0: Clamp,
        outer1: Clamp,
        outer2: Clamp,
        outer3: Clamp,
        inner0: Clamp,
        inner1: Clamp,
    },
    Isolines {
        outer0: Clamp,
        outer1: Clamp,
    },
}

// Returns where a level lies.
fn clamp_of(level: f32, spacing: Spacing, top: u32) -> Clamp
    requires { Top top }
    ensures { result ≡ clamp_of spacing top level }
{
    let clamped = level::segments_of(level, spacing, top);
    clamped.clamp
}

// Returns where each level lies, whether or not the patch is discarded. The number of isolines always has equal spacing.
pub fn clamps_of(patch: Patch, spacing: Spacing, top: u32) -> Clamps
    requires { Top top }
    ensures { result ≡ clamps_of spacing top patch }
{
    match patch {
        Patch::Triangles {
            outer0,
            outer1,
            outer2,
            inner0,
        } => Clamps::Triangles {
            outer0: clamp_of(outer0, spacing, top),
            outer1: clamp_of(outer1, spacing, top),
            outer2: clamp_of(outer2, spacing, top),
            inner0: clamp_of(inner0, spacing, top),
        },
        Patch::Quads {
            outer0,
            outer1,
            outer2,
            outer3,
            inner0,
            inner1,
        } => Clamps::Quads {
            outer0: clamp_of(outer0, spacing, top),
            outer1: clamp_of(outer1, spacing, top),
            outer2: clamp_of(outer2, spacing, top),
            outer3: clamp_of(outer3, spacing, top),
            inner0: clamp_of(inner0, spacing, top),
            inner1: clamp_of(inner1, spacing, top),
        },
        Patch::Isolines { outer0, outer1 } => Clamps::Isolines {
            outer0: clamp_of(outer0, Spacing::Equal, top),
            outer1: clamp_of(outer1, spacing, top),
        },
    }
}
