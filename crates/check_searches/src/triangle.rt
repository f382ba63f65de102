// Triangles and their directed sides (half-edges), three indices per triangle.
ghost use Rattle.std.specs.Prelude.{◌≡◌, ◌&&◌, ◌/◌, ◌<◌, eqb, length};
ghost use Rattle.mesh_geometry.specs.Words.{read_triangles};
ghost use Rattle.check_searches.specs.Triangles.{triangle_at, has_corner, has_side, share_side};

use strip::triangle::Triangle;

// Returns triangle k of a list of indices.
pub fn triangle_at(indices: &[u16], k: usize) -> Triangle
    requires { k < length indices.now / 3 }
    ensures { result ≡ triangle_at (read_triangles indices.now) k }
{
    Triangle {
        a: indices[k * 3],
        b: indices[k * 3 + 1],
        c: indices[k * 3 + 2],
    }
}

pub fn has_corner(t: Triangle, x: u16) -> bool
    ensures { result ≡ has_corner t x }
{
    (t.a == x) | (t.b == x) | (t.c == x)
}

// Whether x→y is the directed side p→q.
fn same_side(x: u16, y: u16, p: u16, q: u16) -> bool
    ensures { result ≡ (eqb x p && eqb y q) }
{
    (x == p) & (y == q)
}

// Whether x→y is a directed side of a triangle.
pub(crate) fn has_side(t: Triangle, x: u16, y: u16) -> bool
    ensures { result ≡ has_side t x y }
{
    same_side(x, y, t.a, t.b) | same_side(x, y, t.b, t.c) | same_side(x, y, t.c, t.a)
}

// Whether x→y is a directed side of triangle k.
pub fn has_side_at(indices: &[u16], k: usize, x: u16, y: u16) -> bool
    requires { k < length indices.now / 3 }
    ensures { result ≡ has_side (triangle_at (read_triangles indices.now) k) x y }
{
    has_side(triangle_at(indices, k), x, y)
}

pub fn share_side(s: Triangle, t: Triangle) -> bool
    ensures { result ≡ share_side s t }
{
    has_side(t, s.a, s.b) | has_side(t, s.b, s.c) | has_side(t, s.c, s.a)
}
