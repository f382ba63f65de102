// Coordinates as `f32`: the whole number, converted and divided once.
#![tactic(auto)]

ghost use Rattle.std.specs.Prelude.{◌≡◌, map, ◌≤◌, ◌<◌, length, take};
ghost use Rattle.buffer.specs.Over.{over};
ghost use Rattle.coordinate.specs.Coordinate.{coordinate, Castable};

// Returns the float of a coordinate, where `one` represents 1. The conversion to `f32` is defined up to 2^24, and no coordinate exceeds that.
pub(crate) fn coordinate_of(x: u32, one: u32) -> f32
    requires { (x ≤ 16777216) × (0 < one) × (one ≤ 16777216) }
    ensures { result ≡ coordinate one x }
{
    (x as f32) / (one as f32)
}

// Writes the first `count` words as floats to the front of `out`, each divided by `one`.
pub fn write_coordinates(out: &mut [f32], words: &[u32], count: usize, one: u32)
    requires room { (count ≤ length out.old) × (count ≤ length words.now) × (0 < one) × (one ≤ 16777216) }
    requires castable { Castable count words.now }
    ensures { out.new ≡ over out.old 0 (map (coordinate one) (take count words.now)) }
{
    for i in 0..count {
        out[i] = coordinate_of(words[i], one);
    }
}
