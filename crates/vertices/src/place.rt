// The point at a place of an edge of a patch.
ghost use Rattle.std.specs.Prelude.{◌≡◌, ◌+◌, ◌≤◌, ◌<◌};
ghost use Rattle.mesh_geometry.specs.TrianglePoints.{triangle_place};
ghost use Rattle.mesh_geometry.specs.QuadPoints.{quad_place};

use mesh_geometry::Point;

// Kept: an edge is its number k here and below, since the definitions `triangle_place`, `quad_place` and `ring` count edges.
// Returns the point at place x of edge k of a triangle patch, on the ring d units inside; `high` is 196608 - d, the start coordinate at place 0.
pub fn triangle_place(k: u32, x: u32, d: u32, high: u32) -> Point
    requires { (k < 3) × (d ≤ x) × (x + d ≤ 65536) × (high + d ≡ 196608) }
    ensures { result ≡ triangle_place k x d }
{
    let start = high - 3 * x;
    let end = 3 * x - d;
    let opposite = 2 * d;
    match k {
        0 => Point {
            u: opposite,
            v: start,
            w: end,
        },
        1 => Point {
            u: end,
            v: opposite,
            w: start,
        },
        _ => Point {
            u: start,
            v: end,
            w: opposite,
        },
    }
}

// Returns the point x units along edge k of a quad patch's outline.
pub fn quad_place(k: u32, x: u32) -> Point
    requires { (k < 4) × (x ≤ 65536) }
    ensures { result ≡ quad_place k x 0 }
{
    match k {
        0 => Point {
            u: 0,
            v: 65536 - x,
            w: 0,
        },
        1 => Point { u: x, v: 0, w: 0 },
        2 => Point {
            u: 65536,
            v: x,
            w: 0,
        },
        _ => Point {
            u: 65536 - x,
            v: 65536,
            w: 0,
        },
    }
}
