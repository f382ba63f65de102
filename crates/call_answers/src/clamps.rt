// Where each level lies, as bytes in the caller's memory.
ghost use Rattle.std.specs.Prelude.{◌≡◌};
ghost use Rattle.level_clamps.specs.Numbers.{clamp_number, clamp_numbers};
ghost use Rattle.measure.specs.Sizes.{size_code};
ghost use Rattle.call_answers.specs.Clamps.{clamp_bytes, no_clamps};

use level::Clamp;
use level_clamps::Clamps;
use measure::cut::NotDrawn;
use measure::size::Size;

// Kept: a function in place of `From`, which would have to lie in `level`, where a clamp has no number (`clamp_number`).
fn byte_of(clamp: Clamp) -> u8
    ensures { result ≡ clamp_number clamp }
{
    match clamp {
        Clamp::Below => 1,
        Clamp::Inside => 2,
        Clamp::Above => 3,
    }
}

fn bytes_of(clamps: Clamps) -> [u8; 6]
    ensures { result ≡ clamp_numbers clamps }
{
    match clamps {
        Clamps::Triangles {
            outer0,
            outer1,
            outer2,
            inner0,
        } => [
            byte_of(outer0),
            byte_of(outer1),
            byte_of(outer2),
            0,
            byte_of(inner0),
            0,
        ],
        Clamps::Quads {
            outer0,
            outer1,
            outer2,
            outer3,
            inner0,
            inner1,
        } => [
            byte_of(outer0),
            byte_of(outer1),
            byte_of(outer2),
            byte_of(outer3),
            byte_of(inner0),
            byte_of(inner1),
        ],
        Clamps::Isolines { outer0, outer1 } => [byte_of(outer0), byte_of(outer1), 0, 0, 0, 0],
    }
}

pub fn say_nothing(clamps: &mut [u8; 6])
    ensures { clamps.new ≡ no_clamps }
{
    *clamps = [0; 6];
}

pub fn say_clamps(answer: Result<Size, NotDrawn>, clamps: &mut [u8; 6])
    ensures { clamps.new ≡ clamp_bytes (size_code answer).values }
{
    match answer {
        Ok(size) => *clamps = bytes_of(size.clamps),
        Err(_) => say_nothing(clamps),
    }
}
