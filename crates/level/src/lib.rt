// Tessellation levels: which level discards its patch, how many segments a level gives, and whether it is clamped.
#![tactic(auto)]

ghost use Rattle.std.specs.Prelude.{◌≡◌};
ghost use Rattle.std.specs.Float.{binary32};
ghost use Rattle.std.specs.Float.Ieee.{of_bits};
ghost use Rattle.level.specs.Discard.{discarded};
ghost use Rattle.level.specs.Top.{Top, is_top};
ghost use Rattle.level.specs.Clamp.{lowest, highest, clamped, side_of, clamp_of, From1To64};
ghost use Rattle.level.specs.Scale.{scaled_level, ScaledInRange};
ghost use Rattle.level.specs.Segments.{segments_at, segments_of, raised, as_inner};

#[derive(Clone, Copy, Drop)]
pub enum Spacing {
    Equal,
    FractionalEven,
    FractionalOdd,
}

// An edge's number of segments, n, and its level in units of 1 / 65536, L.
// Kept: `Valid` is no invariant of this type, since the definition `segments_at` and its theorems speak of segments of any L.
#[derive(Clone, Copy, Drop)]
pub struct Segments {
    pub count: u32,
    pub scaled: u32,
}

// Where a level lies: below the range of its spacing, inside it (ends included) or above it. A NaN lies below.
#[derive(Clone, Copy, Drop)]
pub enum Clamp {
    Below,
    Inside,
    Above,
}

// The segments of a level, and where the level lies.
#[derive(Clone, Copy, Drop)]
pub struct Clamped {
    pub segments: Segments,
    pub clamp: Clamp,
}

// Whether an outer level discards its patch.
pub fn discards(level: f32) -> bool
    ensures { result ≡ discarded level }
{
    !(level > 0.0)
}

// Returns the level with a bit pattern. `f32::from_bits` accepts no NaN pattern.
pub fn level_of_bits(bits: u32) -> f32
    ensures { result ≡ of_bits binary32 bits }
{
    if bits % 0x8000_0000 > 0x7f80_0000 {
        0.0 / 0.0
    } else {
        f32::from_bits(bits)
    }
}

// Whether a number can be the top level, to which levels are clamped: an even number from 2 to 64.
pub fn is_top(top: u32) -> bool
    ensures { result ≡ is_top top }
{
    2 <= top && top <= 64 && top % 2 == 0
}

// The levels of a spacing under a top level, from the least to the greatest.
#[derive(Clone, Copy, Drop)]
pub struct Range {
    pub spacing: Spacing,
    pub top: u32,
    pub least: f32,
    pub greatest: f32,
    pub ghost is_top: { Top top },
    pub ghost from: { least ≡ lowest spacing },
    pub ghost to: { greatest ≡ highest spacing top },
}

pub fn range_of(spacing: Spacing, top: u32) -> Range
    requires { Top top }
    ensures spacing { result.spacing ≡ spacing }
    ensures top { result.top ≡ top }
    ensures least { result.least ≡ lowest spacing }
    ensures greatest { result.greatest ≡ highest spacing top }
{
    match spacing {
        Spacing::Equal => Range {
            spacing,
            top,
            least: 1.0,
            greatest: top as f32,
        },
        Spacing::FractionalEven => Range {
            spacing,
            top,
            least: 2.0,
            greatest: top as f32,
        },
        Spacing::FractionalOdd => Range {
            spacing,
            top,
            least: 1.0,
            greatest: (top - 1) as f32,
        },
    }
}

// A level clamped to its spacing's range, and where it lies.
#[derive(Clone, Copy, Drop)]
struct LevelInRange {
    value: f32,
    clamp: Clamp,
}

// Returns L of a clamped level. An f32 from 1 to 64 is a whole number of units of 2^-23, and an f64 holds that number exactly.
fn parts_of(x: f32) -> u32
    requires { From1To64 x }
    ensures { result ≡ scaled_level x }
{
    let fine = (x as f64) * 8388608.0;
    let fine_parts = fine as u32;
    // Kept: `div_ceil` was tried; it takes 3 instructions more in each of a draw's two calls, and a draw is not to take more than before.
    (fine_parts + 127) / 128
}

// Returns n and L of a scaled level.
fn segments_at(scaled: u32, spacing: Spacing) -> Segments
    requires { ScaledInRange scaled }
    ensures { result ≡ segments_at spacing scaled }
{
    match spacing {
        Spacing::Equal => {
            let count = scaled.div_ceil(65536);
            Segments {
                count,
                scaled: 65536 * count,
            }
        }
        Spacing::FractionalEven => Segments {
            count: 2 * scaled.div_ceil(131072),
            scaled,
        },
        Spacing::FractionalOdd => Segments {
            count: 2 * (scaled - 65536).div_ceil(131072) + 1,
            scaled,
        },
    }
}

impl Range {
    // Clamps a level; a NaN gives the low end.
    fn clamp(self, level: f32) -> LevelInRange
        ensures { result ≡ record { value = clamped self.least self.greatest level; clamp = side_of self.least self.greatest level } }
    {
        if self.least <= level {
            if self.greatest < level {
                LevelInRange {
                    value: self.greatest,
                    clamp: Clamp::Above,
                }
            } else {
                LevelInRange {
                    value: level,
                    clamp: Clamp::Inside,
                }
            }
        } else {
            LevelInRange {
                value: self.least,
                clamp: Clamp::Below,
            }
        }
    }

    // Returns the segments of a level, and where it lies. A range serves several levels, so that it is computed once for them.
    pub fn segments_for(self, level: f32) -> Clamped
        ensures segments { result.segments ≡ segments_of self.spacing self.top level }
        ensures clamp { result.clamp ≡ clamp_of self.spacing self.top level }
    {
        let LevelInRange { value, clamp } = self.clamp(level);
        let segments = segments_at(parts_of(value), self.spacing);
        Clamped { segments, clamp }
    }
}

// The same for a single level.
pub fn segments_of(level: f32, spacing: Spacing, top: u32) -> Clamped
    requires { Top top }
    ensures segments { result.segments ≡ segments_of spacing top level }
    ensures clamp { result.clamp ≡ clamp_of spacing top level }
{
    range_of(spacing, top).segments_for(level)
}

// Returns the segments of an inner level whose own n is 1.
fn raised(spacing: Spacing) -> Segments
    ensures { result ≡ raised spacing }
{
    segments_at(65537, spacing)
}

// Returns the segments of an inner level: its own, or the raised ones if its own n is 1.
pub fn as_inner(own: Segments, spacing: Spacing) -> Segments
    ensures { result ≡ as_inner spacing own }
{
    if own.count == 1 { raised(spacing) } else { own }
}
