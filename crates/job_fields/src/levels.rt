// The six tessellation levels of a record, as bit patterns and as numbers.
ghost use Rattle.std.specs.Prelude.{◌≡◌, ◌+◌, ◌≤◌, length};
ghost use Rattle.job_fields.specs.Levels.{bits_at, levels_of};

use crate::word::read_u32;
use level::level_of_bits;

// Four outer levels and two inner ones: as f32, or as their bit patterns, which keep the payload of a NaN.
#[derive(Clone, Copy, Drop)]
pub struct Levels<T> {
    pub outer0: T,
    pub outer1: T,
    pub outer2: T,
    pub outer3: T,
    pub inner0: T,
    pub inner1: T,
}

pub fn read_bits(bytes: &[u8], at: usize) -> Levels<u32>
    requires { at + 24 ≤ length bytes.now }
    ensures { result ≡ bits_at bytes.now at }
{
    Levels {
        outer0: read_u32(bytes, at),
        outer1: read_u32(bytes, at + 4),
        outer2: read_u32(bytes, at + 8),
        outer3: read_u32(bytes, at + 12),
        inner0: read_u32(bytes, at + 16),
        inner1: read_u32(bytes, at + 20),
    }
}

// Returns the f32 levels with these bit patterns.
pub fn levels_of(bits: Levels<u32>) -> Levels<f32>
    ensures { result ≡ levels_of bits }
{
    Levels {
        outer0: level_of_bits(bits.outer0),
        outer1: level_of_bits(bits.outer1),
        outer2: level_of_bits(bits.outer2),
        outer3: level_of_bits(bits.outer3),
        inner0: level_of_bits(bits.inner0),
        inner1: level_of_bits(bits.inner1),
    }
}
