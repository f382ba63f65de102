// A line of one, two or three numbers.
ghost use Rattle.std.specs.Prelude.{[], ◌∷◌, ◌++◌, ◌+◌, ◌≤◌, length};
ghost use Rattle.buffer.specs.Over.{Wrote};
ghost use Rattle.decimal_text.specs.Digits.{digits};
ghost use Rattle.decimal_text.specs.Lines.{line};

use crate::number::put_number;

// Writes a number and the byte after it.
pub fn put_ended(out: &mut [u8], at: usize, x: u32, end: u8) -> usize
    requires { at + length (digits x) + 1 ≤ length out.old }
    ensures { Wrote out.old at (digits x ++ (end ∷ [])) out.new result }
{
    let w = put_number(out, at, x as u64);
    buffer::put(out, w, end)
}

// Writes one number as a line.
pub fn put_line1(out: &mut [u8], at: usize, x: u32) -> usize
    requires { at + length (line (x ∷ [])) ≤ length out.old }
    ensures { Wrote out.old at (line (x ∷ [])) out.new result }
{
    put_ended(out, at, x, b'\n')
}

// Writes two numbers as a line.
pub(crate) fn put_line2(out: &mut [u8], at: usize, x: u32, y: u32) -> usize
    requires { at + length (line (x ∷ y ∷ [])) ≤ length out.old }
    ensures { Wrote out.old at (line (x ∷ y ∷ [])) out.new result }
{
    let w = put_ended(out, at, x, b' ');
    put_line1(out, w, y)
}

// Writes three numbers as a line.
pub fn put_line3(out: &mut [u8], at: usize, x: u32, y: u32, z: u32) -> usize
    requires { at + length (line (x ∷ y ∷ z ∷ [])) ≤ length out.old }
    ensures { Wrote out.old at (line (x ∷ y ∷ z ∷ [])) out.new result }
{
    let w = put_ended(out, at, x, b' ');
    put_line2(out, w, y, z)
}
