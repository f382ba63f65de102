// Decimal numbers.
ghost use Rattle.std.specs.Prelude.{[], ◌∷◌, ◌+◌, ◌/◌, ◌%◌, ◌≤◌, ◌<◌, length};
ghost use Rattle.buffer.specs.Over.{Wrote};
ghost use Rattle.decimal_text.specs.Digits.{digits};

// Writes two digits.
fn put_pair(out: &mut [u8], at: usize, x: u64) -> usize
    requires two_digits { x < 100 }
    requires room { at + 2 ≤ length out.old }
    ensures { Wrote out.old at ((48 + x / 10) ∷ (48 + x % 10) ∷ []) out.new result }
{
    buffer::put2(out, at, b'0' + (x / 10) as u8, b'0' + (x % 10) as u8)
}

// Writes the digits of x, two at a time from the end.
// Kept: the digits go into a lent buffer by hand, since `format!` makes its text on the heap, which this project does not use.
pub fn put_number(out: &mut [u8], at: usize, x: u64) -> usize
    requires { at + length (digits x) ≤ length out.old }
    ensures { Wrote out.old at (digits x) out.new result }
{
    if x < 10 {
        return buffer::put(out, at, b'0' + x as u8);
    }
    if x < 100 {
        return put_pair(out, at, x);
    }
    let w = put_number(out, at, x / 100);
    put_pair(out, w, x % 100)
}
