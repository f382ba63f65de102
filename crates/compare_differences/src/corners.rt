// The corners of a triangle of one mesh among the points of another mesh, and the search for a triangle with these corners.
ghost use Rattle.std.specs.Prelude.{◌≡◌, ◌/◌, ◌≤◌, ◌<◌, ℕ, IfSome, length, unwrap_or};
ghost use Rattle.mesh_geometry.specs.Faces.{at, face_of};
ghost use Rattle.mesh_geometry.specs.Words.{read_points, read_triangles};
ghost use Rattle.compare_differences.specs.Meshes.{NoneRepeated};
ghost use Rattle.compare_differences.specs.Found.{Cornered, Matched, PointFound, some_triangle};

use crate::point::find_point;
use crate::window::{window_end, window_start};
use check_searches::point::point_at;
use check_side_searches::same::has_triangle_in;
use strip::triangle::Triangle;

// Returns how many of the points an index can refer to.
fn numbered(points: &[u32]) -> usize
    ensures { (result ≤ length points.now / 3) × (result ≤ 65536) × ((i : ℕ) → i < length points.now / 3 → i < 65536 → i < result) }
{
    (points.len() / 3).min(65536)
}

// Returns the number of the point of the other mesh that equals point x, if one of its first `count` points does.
fn match_corner(points: &[u32], x: usize, others: &[u32], count: usize) -> Option<usize>
    requires in_range { x < length points.now / 3 }
    requires known { count ≤ length others.now / 3 }
    ensures found { PointFound (read_points others.now) count (at (read_points points.now) x) (unwrap_or result count) }
    ensures inside { IfSome result (λ r. r < count) }
{
    find_point(others, count, x, point_at(points, x))
}

// Returns the numbers of the other mesh's points that equal the corners of triangle t, unless one is missing.
pub(crate) fn match_corners(points: &[u32], t: Triangle, others: &[u32]) -> Option<Triangle>
    requires cornered { Cornered (length points.now / 3) t }
    requires distinct { NoneRepeated others.now }
    ensures { Matched (read_points others.now) (face_of (at (read_points points.now)) t) result }
{
    let count = numbered(others);
    let a = match_corner(points, t.a as usize, others, count)?;
    let b = match_corner(points, t.b as usize, others, count)?;
    let c = match_corner(points, t.c as usize, others, count)?;
    Some(Triangle {
        a: a as u16,
        b: b as u16,
        c: c as u16,
    })
}

// Whether one of the triangles is t, up to rotation; those next to number `near` are tested first.
pub(crate) fn has_triangle(indices: &[u16], near: usize, t: Triangle) -> bool
    ensures { result ≡ some_triangle (read_triangles indices.now) t }
{
    let count = indices.len() / 3;
    let from = window_start(near, count);
    let to = window_end(from, count);
    has_triangle_in(indices, from, to, t) || has_triangle_in(indices, 0, count, t)
}
