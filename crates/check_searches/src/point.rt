// Searches among points, three words per point.
ghost use Rattle.std.specs.Prelude.{◌≡◌, ◌/◌, ◌≤◌, ◌<◌, length};
ghost use Rattle.mesh_geometry.specs.Faces.{at};
ghost use Rattle.mesh_geometry.specs.Words.{read_points};
ghost use Rattle.check_searches.specs.Points.{same_point, first_equal, repeats, first_repeated};

use mesh_geometry::Point;

// Returns point k of a list of words.
pub fn point_at(points: &[u32], k: usize) -> Point
    requires { k < length points.now / 3 }
    ensures { result ≡ at (read_points points.now) k }
{
    Point {
        u: points[k * 3],
        v: points[k * 3 + 1],
        w: points[k * 3 + 2],
    }
}

// Whether two points are equal.
pub fn same_point(p: Point, q: Point) -> bool
    ensures { result ≡ same_point p q }
{
    p == q
}

// Whether point k equals q.
pub fn lies_at(points: &[u32], k: usize, q: Point) -> bool
    requires { k < length points.now / 3 }
    ensures { result ≡ same_point (at (read_points points.now) k) q }
{
    same_point(point_at(points, k), q)
}

// Returns the first of the points before number `end` that equals q, or `end`.
pub fn first_equal(points: &[u32], q: Point, end: usize) -> usize
    requires { end ≤ length points.now / 3 }
    ensures { result ≡ first_equal (read_points points.now) q end }
{
    for i in 0..end {
        if lies_at(points, i, q) {
            return i;
        }
    }
    end
}

// Whether point j equals an earlier point.
fn is_repeated(points: &[u32], j: usize) -> bool
    requires { j < length points.now / 3 }
    ensures { result ≡ repeats (read_points points.now) j }
{
    first_equal(points, point_at(points, j), j) < j
}

// Returns the first point that equals an earlier point, or the number of points.
pub fn first_repeated(points: &[u32]) -> usize
    ensures { result ≡ first_repeated (read_points points.now) }
{
    let count = points.len() / 3;
    for j in 0..count {
        if is_repeated(points, j) {
            return j;
        }
    }
    count
}
