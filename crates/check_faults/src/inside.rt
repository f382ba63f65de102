// The search for a point outside the patch.
ghost use Rattle.std.specs.Prelude.{◌≡◌};
ghost use Rattle.mesh_geometry.specs.Words.{read_points};
ghost use Rattle.check_faults.specs.Inside.{inside, first_outside};

use check_searches::point::point_at;
use mesh_geometry::Point;

// Whether a point is inside a triangle patch (true) or a quad patch (false).
fn is_inside(p: Point, triangles: bool) -> bool
    ensures { result ≡ inside triangles p }
{
    if triangles {
        p.u as u64 + p.v as u64 + p.w as u64 == 196608
    } else {
        (p.u <= 65536) & (p.v <= 65536) & (p.w == 0)
    }
}

// Returns the first point outside the patch, or the number of points.
pub fn first_outside(points: &[u32], triangles: bool) -> usize
    ensures { result ≡ first_outside triangles (read_points points.now) }
{
    let count = points.len() / 3;
    for k in 0..count {
        if !is_inside(point_at(points, k), triangles) {
            return k;
        }
    }
    count
}
