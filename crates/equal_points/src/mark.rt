// A table of marks, one per slot. A mark is 0 if no point so far has the slot, one more than the number of the point if one has
// it, and 65535 if several have it or the number is too large. The table has the same size for any number of points.
// Kept: a mark is a number of 16 bits and no enum, which would take twice the memory on the stack.
ghost use Rattle.std.specs.Prelude.{◌≡◌, true};
ghost use Rattle.mesh_geometry.specs.Words.{read_points};
ghost use Rattle.equal_points.specs.Marks.{NamesNoEqual, NewMark};

use check_searches::point::{point_at, same_point};
use mesh_geometry::Point;

// Whether the mark shows that no earlier point equals p. False if the mark does not decide.
pub(crate) fn is_clear(points: &[u32], mark: u16, p: Point) -> bool
    ensures { result ≡ true → NamesNoEqual (read_points points.now) mark p }
{
    if mark == 0 {
        return true;
    }
    if mark == 65535 {
        return false;
    }
    let k = (mark - 1) as usize;
    if points.len() / 3 <= k {
        return false;
    }
    !same_point(point_at(points, k), p)
}

// Returns the mark of a slot after point j.
pub(crate) fn mark_after(mark: u16, j: usize) -> u16
    ensures { NewMark mark j result }
{
    if mark != 0 || 65534 <= j {
        return 65535;
    }
    (j + 1) as u16
}
