// A record of a job file: the patch and the settings that it asks for.
ghost use Rattle.std.specs.Prelude.{◌≡◌};
ghost use Rattle.job.specs.Patches.{patch_of};

use job_fields::levels::Levels;
use job_fields::setting::Kind;
use patch::kinds::Patch;
use patch::settings::Settings;

#[derive(Clone, Copy, Drop)]
pub struct Record {
    pub kind: Kind,
    pub settings: Settings,
    pub levels: Levels<f32>,
    // The bit patterns that the levels were read from.
    pub bits: Levels<u32>,
}

// Returns the patch, with the levels that count for its kind.
pub fn patch_of(record: Record) -> Patch
    ensures { result ≡ patch_of «record» }
{
    let kind = record.kind;
    let levels = record.levels;
    match kind {
        Kind::Triangles => Patch::Triangles {
            outer0: levels.outer0,
            outer1: levels.outer1,
            outer2: levels.outer2,
            inner0: levels.inner0,
        },
        Kind::Quads => Patch::Quads {
            outer0: levels.outer0,
            outer1: levels.outer1,
            outer2: levels.outer2,
            outer3: levels.outer3,
            inner0: levels.inner0,
            inner1: levels.inner1,
        },
        Kind::Isolines => Patch::Isolines {
            outer0: levels.outer0,
            outer1: levels.outer1,
        },
    }
}

pub fn settings_of(record: Record) -> Settings
    ensures { result ≡ «record».settings }
{
    record.settings
}
