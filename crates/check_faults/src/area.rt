// The search for a triangle with no area or the wrong orientation.
ghost use Rattle.std.specs.Prelude.{◌≡◌, length};
ghost use Rattle.mesh_geometry.specs.Cover.{twice_area};
ghost use Rattle.mesh_geometry.specs.Faces.{at, face_of};
ghost use Rattle.mesh_geometry.specs.Words.{read_points, read_triangles};
ghost use Rattle.check_faults.specs.Turns.{has_sign, Small, AllSmall, Numbered, first_turned};

use crate::mesh::NumberedMesh;
use check_searches::point::point_at;
use check_searches::triangle::triangle_at;
use mesh_geometry::Point;
use strip::triangle::Triangle;

// Returns twice the signed area of a triangle.
fn twice_area(p: Point, q: Point, r: Point) -> i64
    requires p_small { Small p }
    requires q_small { Small q }
    requires r_small { Small r }
    ensures { result ≡ twice_area (record { p = p; q = q; r = r }) }
{
    (q.u as i64 - p.u as i64) * (r.v as i64 - p.v as i64)
        - (r.u as i64 - p.u as i64) * (q.v as i64 - p.v as i64)
}

// Whether a number is not 0 and has the sign of the orientation asked for.
fn has_sign(z: i64, positive: bool) -> bool
    ensures { result ≡ has_sign positive z }
{
    if positive { z > 0 } else { z < 0 }
}

// Whether a triangle has an area, and the orientation asked for.
fn turns(points: &[u32], t: Triangle, positive: bool) -> bool
    requires numbered { Numbered (length (read_points points.now)) t }
    requires small { AllSmall (read_points points.now) }
    ensures { result ≡ has_sign positive (twice_area (face_of (at (read_points points.now)) t)) }
{
    let p = point_at(points, t.a as usize);
    let q = point_at(points, t.b as usize);
    let r = point_at(points, t.c as usize);
    has_sign(twice_area(p, q, r), positive)
}

// Returns the first triangle that has no area or the wrong orientation, or the number of triangles.
pub fn first_turned(mesh: NumberedMesh) -> usize
    requires { AllSmall (read_points mesh.points.now) }
    ensures { result ≡ first_turned mesh.entry.positive (read_points mesh.entry.points.now) (read_triangles mesh.entry.indices.now) }
{
    let count = mesh.indices.len() / 3;
    for k in 0..count {
        if !turns(mesh.points, triangle_at(mesh.indices, k), mesh.positive) {
            return k;
        }
    }
    count
}
