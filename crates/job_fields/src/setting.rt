// The first five setting bytes of a record: kind, spacing, vertex order, domain origin, point mode.
ghost use Rattle.std.specs.Prelude.{◌≡◌, ℕ, ◌+◌, ◌≤◌, length};
ghost use Rattle.std.proofs.Common.{rules};
ghost use Rattle.job_fields.specs.Settings.{first_unknown_setting, kind_of, spacing_of, order_of, origin_of, point_mode_of, settings_at};
ghost use Rattle.job_fields.specs.Settings.{kind_byte, spacing_byte, order_byte, origin_byte, switch_byte};

use level::Spacing;
use patch::settings::{DomainOrigin, Settings, VertexOrder};

// A setting that a job file holds as one byte.
pub trait SettingByte: Copy {
    ghost value_of: { ℕ → Self };

    ghost byte_of: { Self → ℕ };

    // Returns the value of a byte; a byte that is out of range has the value of the greatest one in range.
    fn of_byte(byte: u8) -> Self
        ensures { result ≡ value_of byte };

    fn byte(self) -> u8
        ensures { result ≡ byte_of self };

    ghost reads_back: { (setting : Self) → value_of (byte_of setting) ≡ setting };
}

#[derive(Clone, Copy, Debug, PartialEq, Eq, Drop)]
pub enum Kind {
    Triangles,
    Quads,
    Isolines,
}

impl SettingByte for Kind {
    ghost value_of = { kind_of };

    ghost byte_of = { kind_byte };

    ghost reads_back = { Prim.search rules };

    fn of_byte(byte: u8) -> Kind {
        match byte {
            0 => Kind::Triangles,
            1 => Kind::Quads,
            _ => Kind::Isolines,
        }
    }

    fn byte(self) -> u8 {
        match self {
            Kind::Triangles => 0,
            Kind::Quads => 1,
            Kind::Isolines => 2,
        }
    }
}

impl SettingByte for Spacing {
    ghost value_of = { spacing_of };

    ghost byte_of = { spacing_byte };

    ghost reads_back = { Prim.search rules };

    fn of_byte(byte: u8) -> Spacing {
        match byte {
            0 => Spacing::Equal,
            1 => Spacing::FractionalEven,
            _ => Spacing::FractionalOdd,
        }
    }

    fn byte(self) -> u8 {
        match self {
            Spacing::Equal => 0,
            Spacing::FractionalEven => 1,
            Spacing::FractionalOdd => 2,
        }
    }
}

impl SettingByte for VertexOrder {
    ghost value_of = { order_of };

    ghost byte_of = { order_byte };

    ghost reads_back = { Prim.search rules };

    fn of_byte(byte: u8) -> VertexOrder {
        match byte {
            0 => VertexOrder::Clockwise,
            _ => VertexOrder::CounterClockwise,
        }
    }

    fn byte(self) -> u8 {
        match self {
            VertexOrder::Clockwise => 0,
            VertexOrder::CounterClockwise => 1,
        }
    }
}

impl SettingByte for DomainOrigin {
    ghost value_of = { origin_of };

    ghost byte_of = { origin_byte };

    ghost reads_back = { Prim.search rules };

    fn of_byte(byte: u8) -> DomainOrigin {
        match byte {
            0 => DomainOrigin::UpperLeft,
            _ => DomainOrigin::LowerLeft,
        }
    }

    fn byte(self) -> u8 {
        match self {
            DomainOrigin::UpperLeft => 0,
            DomainOrigin::LowerLeft => 1,
        }
    }
}

// The point mode.
impl SettingByte for bool {
    ghost value_of = { point_mode_of };

    ghost byte_of = { switch_byte };

    ghost reads_back = { Prim.search rules };

    fn of_byte(byte: u8) -> bool {
        byte != 0
    }

    fn byte(self) -> u8 {
        self as u8
    }
}

// How many values each setting has.
const CHOICES: [u8; 5] = [3, 3, 2, 2, 2];

// Returns the place, from 0, of the first of the five bytes that is out of range, or 5.
pub fn first_unknown(bytes: &[u8], at: usize) -> usize
    requires { at + 5 ≤ length bytes.now }
    ensures { result ≡ first_unknown_setting bytes.now at }
{
    for place in 0..5 {
        if CHOICES[place] <= bytes[at + place] {
            return place;
        }
    }
    5
}

// Reads the four setting bytes after the kind; the top level is given.
pub fn read_settings(bytes: &[u8], at: usize, top: u32) -> Settings
    requires { at + 5 ≤ length bytes.now }
    ensures { result ≡ settings_at bytes.now at top }
{
    Settings {
        spacing: Spacing::of_byte(bytes[at + 1]),
        order: VertexOrder::of_byte(bytes[at + 2]),
        origin: DomainOrigin::of_byte(bytes[at + 3]),
        point_mode: bool::of_byte(bytes[at + 4]),
        top,
    }
}
