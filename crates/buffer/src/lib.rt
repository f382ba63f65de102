// Writes a few items, or all of a list, into a slice: the only stores that the writers of indices, vertices and differences use.
#![tactic(auto)]

ghost use Rattle.std.specs.Prelude.{[], ◌∷◌, ◌+◌, ◌≤◌, length};
ghost use Rattle.buffer.specs.Over.{Wrote};

pub fn put<T: Copy>(out: &mut [T], at: usize, x: T) -> usize
    requires { at + 1 ≤ length out.old }
    ensures { Wrote out.old at (x ∷ []) out.new result }
{
    out[at] = x;
    at + 1
}

pub fn put2<T: Copy>(out: &mut [T], at: usize, x: T, y: T) -> usize
    requires { at + 2 ≤ length out.old }
    ensures { Wrote out.old at (x ∷ y ∷ []) out.new result }
{
    out[at] = x;
    out[at + 1] = y;
    at + 2
}

pub fn put3<T: Copy>(out: &mut [T], at: usize, x: T, y: T, z: T) -> usize
    requires { at + 3 ≤ length out.old }
    ensures { Wrote out.old at (x ∷ y ∷ z ∷ []) out.new result }
{
    out[at] = x;
    out[at + 1] = y;
    out[at + 2] = z;
    at + 3
}

// Writes all of `items`.
// Kept: a loop, since `copy_from_slice` was tried: a triangle patch of level 64 takes 3 in 10 instructions more. It copies through pointers
// that may overlap for all that LLVM knows, so each block of 24 indices was also stored on the stack and its place compared.
pub fn put_all<T: Copy>(out: &mut [T], at: usize, items: &[T]) -> usize
    requires { at + length items.now ≤ length out.old }
    ensures { Wrote out.old at items.now out.new result }
{
    for (i, x) in items.iter().enumerate() {
        out[at + i] = *x;
    }
    at + items.len()
}
