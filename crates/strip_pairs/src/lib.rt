// Two steps of a strip at a time: the outer line advances, then the inner line.
#![tactic(auto)]

ghost use Rattle.std.specs.Prelude.{◌≡◌, true, [], ◌∷◌, ◌++◌, ◌+◌, ◌-◌, ◌*◌, ◌≤◌, ◌<◌, length};
ghost use Rattle.buffer.specs.Over.{Wrote};
ghost use Rattle.strip.specs.Triangles.{indices};
ghost use Rattle.strip.specs.Lines.{vertex};
ghost use Rattle.strip.specs.Strips.{step_triangle};
ghost use Rattle.strip_pairs.specs.Pairs.{pair, Paired};

use strip::line::Line;
use strip::triangle::Triangle;

// Writes two triangles.
fn put_two(out: &mut [u16], at: usize, s: Triangle, t: Triangle, positive: bool) -> usize
    requires { at + 6 ≤ length out.old }
    ensures { Wrote out.old at (indices positive (s ∷ t ∷ [])) out.new result }
{
    let to = strip::triangle::put_triangle(out, at, s, positive);
    strip::triangle::put_triangle(out, to, t, positive)
}

// The place after what was written, and the vertices reached on the two lines.
#[derive(Clone, Copy, Drop)]
pub struct Reached {
    pub to: usize,
    pub x: u16,
    pub y: u16,
}

// Writes n pairs of steps from points a and b on, whose vertices are `first` and `second`; neither line reaches its last point.
pub fn write_pairs(
    out: &mut [u16],
    at: usize,
    outer: Line,
    inner: Line,
    a: u32,
    b: u32,
    n: u32,
    first: u16,
    second: u16,
    positive: bool,
) -> Reached
    requires inside { (a + n < outer.count) × (b + n ≤ inner.count - 1) }
    requires here { (first ≡ vertex outer a) × (second ≡ vertex inner b) }
    requires room { at + 6 * n ≤ length out.old }
    ensures { Paired (vertex outer) (vertex inner) positive a b n out.old at out.new result.to result.x result.y }
{
    let mut x = first;
    let mut y = second;
    let mut to = at;
    for i in 0..n {
        let u = outer.next(a + i, x);
        let v = inner.next(b + i, y);
        to = put_two(
            out,
            to,
            Triangle { a: x, b: u, c: y },
            Triangle { a: u, b: v, c: y },
            positive,
        );
        x = u;
        y = v;
    }
    Reached { to, x, y }
}

// Writes the last pair of steps, from the vertices x and y on, and the last step of the outer line.
pub fn write_last(
    out: &mut [u16],
    at: usize,
    outer: Line,
    inner: Line,
    x: u16,
    y: u16,
    positive: bool,
) -> usize
    requires counts { (outer.count ≡ inner.count + 2) × (1 ≤ inner.count) }
    requires outer_here { x ≡ vertex outer inner.count }
    requires inner_here { y ≡ vertex inner (inner.count - 1) }
    requires room { at + 9 ≤ length out.old }
    ensures { Wrote out.old at (indices positive (pair (vertex outer) (vertex inner) inner.count (inner.count - 1)) ++ indices positive
        (step_triangle (vertex outer) (vertex inner) true (inner.count + 1) inner.count ∷ [])) out.new result }
{
    let r = inner.count;
    let u = outer.next(r, x);
    let v = inner.after(r - 1, y);
    let z = outer.after(r + 1, u);
    let to = put_two(
        out,
        at,
        Triangle { a: x, b: u, c: y },
        Triangle { a: u, b: v, c: y },
        positive,
    );
    strip::triangle::put_triangle(out, to, Triangle { a: u, b: z, c: v }, positive)
}

// Writes the two triangles between an outer line of two segments and an inner line that is a single vertex.
pub fn write_fan(out: &mut [u16], at: usize, outer: Line, inner: Line, positive: bool) -> usize
    requires counts { (outer.count ≡ 2) × (inner.count ≡ 0) }
    requires room { at + 6 ≤ length out.old }
    ensures { Wrote out.old at (indices positive (step_triangle (vertex outer) (vertex inner) true 0 0 ∷ step_triangle (vertex outer)
        (vertex inner) true 1 0 ∷ [])) out.new result }
{
    let x = outer.vertex_at(0);
    let y = inner.vertex_at(0);
    let u = outer.next(0, x);
    let z = outer.after(1, u);
    put_two(
        out,
        at,
        Triangle { a: x, b: u, c: y },
        Triangle { a: u, b: z, c: y },
        positive,
    )
}
