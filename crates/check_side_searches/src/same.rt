// The search for a triangle by the numbers of its corners.
ghost use Rattle.std.specs.Prelude.{◌≡◌, ◌/◌, ◌≤◌, length};
ghost use Rattle.mesh_geometry.specs.Words.{read_triangles};
ghost use Rattle.check_side_searches.specs.Same.{same_triangle, TriangleFound};

use crate::pair::next_touching;
use check_searches::triangle::triangle_at;
use strip::triangle::Triangle;

// Whether two triangles are the same up to rotation.
pub fn same_triangle(s: Triangle, t: Triangle) -> bool
    ensures { result ≡ same_triangle s t }
{
    (s == t)
        | (s.a == t.b) & (s.b == t.c) & (s.c == t.a)
        | (s.a == t.c) & (s.b == t.a) & (s.c == t.b)
}

// Whether one of the triangles from number `from` up to, not including, `to` is t, up to rotation.
pub fn has_triangle_in(indices: &[u16], from: usize, to: usize, t: Triangle) -> bool
    requires order { from ≤ to }
    requires within { to ≤ length indices.now / 3 }
    ensures { TriangleFound (read_triangles indices.now) from to t result }
{
    let x = t.a;
    // Kept: the loop goes on from each triangle that has the vertex to the next that does, which no range gives.
    let mut i = next_touching(indices, from, to, x, x);
    while i < to {
        if same_triangle(triangle_at(indices, i), t) {
            return true;
        }
        i = next_touching(indices, i + 1, to, x, x);
    }
    false
}
