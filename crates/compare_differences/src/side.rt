// Whether a point or triangle of one mesh is a difference: the other mesh lacks it, and no earlier one of its own mesh is the same.
ghost use Rattle.std.specs.Prelude.{◌≡◌, ◌/◌, ◌<◌, length};
ghost use Rattle.mesh_geometry.specs.Faces.{at, face_of};
ghost use Rattle.mesh_geometry.specs.Words.{read_points};
ghost use Rattle.check_searches.specs.Points.{same_point};
ghost use Rattle.compare_differences.specs.Lacking.{among, lacks};
ghost use Rattle.compare_differences.specs.Meshes.{NoneRepeated, point_row, face_row, same_face};
ghost use Rattle.compare_differences.specs.Found.{Cornered};

use crate::corners::{has_triangle, match_corners};
use crate::mesh::SoundMesh;
use crate::place::is_in_place;
use crate::point::find_point;
use check_searches::point::point_at;
use check_searches::triangle::triangle_at;
use check_side_searches::same::has_triangle_in;
use strip::triangle::Triangle;

// Whether point k is not among the other mesh's points.
pub fn lacks_point(points: &[u32], k: usize, others: &[u32]) -> bool
    requires in_range { k < length points.now / 3 }
    requires distinct { NoneRepeated points.now }
    ensures { result ≡ lacks same_point (point_row points.now) (point_row others.now) k }
{
    find_point(others, others.len() / 3, k, point_at(points, k)).is_none()
}

// Whether one of the other mesh's triangles is t, of these points; those next to number `near` are tested first.
fn has_face(points: &[u32], t: Triangle, near: usize, other: SoundMesh) -> bool
    requires { Cornered (length points.now / 3) t }
    ensures { result ≡ among same_face (face_row other.entry.points.now other.entry.indices.now)
        (face_row other.entry.points.now other.entry.indices.now).count (face_of (at (read_points points.now)) t) }
{
    match match_corners(points, t, other.points) {
        Some(s) => has_triangle(other.indices, near, s),
        None => false,
    }
}

// Whether triangle k is not among the other mesh's triangles, nor among the earlier triangles of its own mesh.
pub fn lacks_face(mesh: SoundMesh, k: usize, other: SoundMesh) -> bool
    requires { k < length mesh.indices.now / 3 }
    ensures { result ≡ lacks same_face (face_row mesh.entry.points.now mesh.entry.indices.now) (face_row other.entry.points.now other.entry.indices.now) k }
{
    if is_in_place(k, mesh, other) {
        return false;
    }
    let t = triangle_at(mesh.indices, k);
    if has_face(mesh.points, t, k, other) {
        return false;
    }
    !has_triangle_in(mesh.indices, 0, k, t)
}
