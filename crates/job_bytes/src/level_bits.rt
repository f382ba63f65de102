// Records made of bit patterns or of f32 levels.
ghost use Rattle.std.specs.Prelude.{◌≡◌};
ghost use Rattle.job_bytes.specs.Patterns.{level_pattern, bits_of, MadeRecord, record_of_bits};

use job::record::Record;
use job_fields::levels::{Levels, levels_of};
use job_fields::setting::Kind;
use patch::settings::Settings;

// Returns the bit pattern of a level. `f32::to_bits` accepts no NaN; a NaN gets the pattern 0x7fc00000.
fn bits_of_level(level: f32) -> u32
    ensures { result ≡ level_pattern level }
{
    if level.is_nan() {
        0x7fc0_0000
    } else {
        level.to_bits()
    }
}

pub(crate) fn bits_of(levels: Levels<f32>) -> Levels<u32>
    ensures { result ≡ bits_of levels }
{
    Levels {
        outer0: bits_of_level(levels.outer0),
        outer1: bits_of_level(levels.outer1),
        outer2: bits_of_level(levels.outer2),
        outer3: bits_of_level(levels.outer3),
        inner0: bits_of_level(levels.inner0),
        inner1: bits_of_level(levels.inner1),
    }
}

// Returns the record of f32 levels.
pub fn record_of(kind: Kind, settings: Settings, levels: Levels<f32>) -> Record
    ensures { MadeRecord kind settings levels result }
{
    let bits = bits_of(levels);
    Record {
        kind,
        settings,
        levels,
        bits,
    }
}

// Returns the record of bit patterns, as a file or a caller has them; a NaN keeps its own pattern.
pub fn record_of_bits(kind: Kind, settings: Settings, bits: Levels<u32>) -> Record
    ensures { result ≡ record_of_bits kind settings bits }
{
    let levels = levels_of(bits);
    Record {
        kind,
        settings,
        levels,
        bits,
    }
}
