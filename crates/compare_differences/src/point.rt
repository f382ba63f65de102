// The search for a point by its coordinates.
ghost use Rattle.std.specs.Prelude.{◌/◌, ◌≤◌, ◌<◌, IfSome, length, unwrap_or};
ghost use Rattle.mesh_geometry.specs.Words.{read_points};
ghost use Rattle.compare_differences.specs.Found.{Passed, PointFound};

use crate::window::{window_end, window_start};
use check_searches::point::lies_at;
use mesh_geometry::Point;

// Returns the first point from number `from` up to, not including, `to` that equals p.
fn first_in(points: &[u32], from: usize, to: usize, p: Point) -> Option<usize>
    requires { (from ≤ to) × (to ≤ length points.now / 3) }
    ensures passed { Passed (read_points points.now) from to p (unwrap_or result to) }
    ensures inside { IfSome result (λ r. r < to) }
{
    for i in from..to {
        if lies_at(points, i, p) {
            return Some(i);
        }
    }
    None
}

// Returns a point that equals p and is near number `near`, else the first of the first `count` points that does.
fn find_far(points: &[u32], count: usize, near: usize, p: Point) -> Option<usize>
    requires { count ≤ length points.now / 3 }
    ensures found { PointFound (read_points points.now) count p (unwrap_or result count) }
    ensures inside { IfSome result (λ r. r < count) }
{
    let from = window_start(near, count);
    let to = window_end(from, count);
    if let Some(i) = first_in(points, from, to, p) {
        return Some(i);
    }
    first_in(points, 0, count, p)
}

// Returns a point that equals p among the first `count`; number `near` is tested first.
pub(crate) fn find_point(points: &[u32], count: usize, near: usize, p: Point) -> Option<usize>
    requires { count ≤ length points.now / 3 }
    ensures found { PointFound (read_points points.now) count p (unwrap_or result count) }
    ensures inside { IfSome result (λ r. r < count) }
{
    if near < count && lies_at(points, near, p) {
        return Some(near);
    }
    find_far(points, count, near, p)
}
