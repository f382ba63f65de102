// A quotient and its remainder, carried from one dividend to the next.
ghost use Rattle.std.specs.Prelude.{◌+◌, ◌*◌, ◌≤◌, ◌<◌};
ghost use Rattle.edge.specs.Carries.{Divides};

#[derive(Clone, Copy, Drop)]
pub struct Carry {
    pub quotient: u32,
    pub remainder: u32,
}

// Divides x by l.
pub(crate) fn divide(x: u64, l: u32) -> Carry
    requires dividend { x ≤ 4294967296 }
    requires divisor { 65536 ≤ l }
    ensures { Divides x l result }
{
    let d = l as u64;
    Carry {
        quotient: (x / d) as u32,
        remainder: (x % d) as u32,
    }
}

// Returns quotient and remainder of the sum of two dividends, without a division.
pub(crate) fn sum(a: Carry, b: Carry, l: u32) -> Carry
    requires { ((a.quotient ≤ 4194304) × (b.quotient ≤ 4194304)) × ((a.remainder < l) × (b.remainder < l) × (l ≤ 4194304)) }
    ensures { Divides (a.quotient * l + a.remainder + (b.quotient * l + b.remainder)) l result }
{
    let quotient = a.quotient + b.quotient;
    let remainder = a.remainder + b.remainder;
    if remainder < l {
        Carry {
            quotient,
            remainder,
        }
    } else {
        Carry {
            quotient: quotient + 1,
            remainder: remainder - l,
        }
    }
}
