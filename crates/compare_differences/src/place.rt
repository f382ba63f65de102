// The fastest test: the triangle with the same number.
ghost use Rattle.std.specs.Prelude.{◌≡◌, true, ◌/◌, ◌<◌, length};
ghost use Rattle.check_searches.specs.Points.{same_point};
ghost use Rattle.compare_differences.specs.Meshes.{point_row, face_row};
ghost use Rattle.compare_differences.specs.Found.{InPlace};

use crate::mesh::SoundMesh;
use check_searches::point::{lies_at, point_at};
use check_searches::triangle::triangle_at;

// Whether point x of one list equals point y of another.
fn same_place(points: &[u32], x: u16, others: &[u32], y: u16) -> bool
    requires point { x < length points.now / 3 }
    requires other { y < length others.now / 3 }
    ensures { result ≡ same_point ((point_row others.now).entry y) ((point_row points.now).entry x) }
{
    lies_at(others, y as usize, point_at(points, x as usize))
}

// Whether triangle k of the other mesh has equal corners in the same order.
pub(crate) fn is_in_place(k: usize, mesh: SoundMesh, other: SoundMesh) -> bool
    requires { k < length mesh.indices.now / 3 }
    ensures { result ≡ true → InPlace (face_row mesh.entry.points.now mesh.entry.indices.now) (face_row other.entry.points.now other.entry.indices.now) k }
{
    if k < other.indices.len() / 3 {
        let s = triangle_at(mesh.indices, k);
        let t = triangle_at(other.indices, k);
        same_place(mesh.points, s.a, other.points, t.a)
            & same_place(mesh.points, s.b, other.points, t.b)
            & same_place(mesh.points, s.c, other.points, t.c)
    } else {
        false
    }
}
