// A triangle by its vertex numbers, and its index words.
ghost use Rattle.std.specs.Prelude.{◌≡◌, ◌+◌, ◌≤◌, length};
ghost use Rattle.buffer.specs.Over.{Wrote};
ghost use Rattle.strip.specs.Triangles.{corners, turned};

#[derive(Clone, Copy, PartialEq, Eq, Drop)]
pub struct Triangle {
    pub a: u16,
    pub b: u16,
    pub c: u16,
}

// Returns the triangle in the strips' orientation, or with its second and third corner exchanged.
fn turn(t: Triangle, positive: bool) -> Triangle
    ensures { result ≡ turned positive t }
{
    if positive {
        t
    } else {
        Triangle {
            a: t.a,
            b: t.c,
            c: t.b,
        }
    }
}

pub fn put_triangle(out: &mut [u16], at: usize, t: Triangle, positive: bool) -> usize
    requires { at + 3 ≤ length out.old }
    ensures { Wrote out.old at (corners (turned positive t)) out.new result }
{
    let u = turn(t, positive);
    buffer::put3(out, at, u.a, u.b, u.c)
}
