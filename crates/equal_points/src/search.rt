// The search: with a table of points if they fit, else with marks.
ghost use Rattle.std.specs.Prelude.{◌≡◌, ◌+◌, ◌*◌, ◌/◌, ◌≤◌, ◌<◌, length};
ghost use Rattle.mesh_geometry.specs.Faces.{at};
ghost use Rattle.mesh_geometry.specs.Words.{read_points};
ghost use Rattle.check_searches.specs.Points.{repeats, first_repeated};
ghost use Rattle.point_table.specs.Trees.{slot_of};
ghost use Rattle.equal_points.specs.Marks.{Names};

use crate::mark::{is_clear, mark_after};
use check_searches::point::{first_equal, point_at};
use mesh_geometry::Point;
use point_table::slot_of;

// Whether point j, which is p, equals an earlier point; `mark` is the mark of its slot, of `slots` slots.
fn repeats_earlier(points: &[u32], j: usize, p: Point, slots: usize, mark: u16) -> bool
    requires in_range { j < length points.now / 3 }
    requires is_point { p ≡ at (read_points points.now) j }
    requires marked { Names (read_points points.now) slots j (slot_of slots p) mark }
    ensures { result ≡ repeats (read_points points.now) j }
{
    if is_clear(points, mark, p) {
        return false;
    }
    first_equal(points, p, j) < j
}

// Returns the first point that equals an earlier point, or the number of points; uses the marks lent.
fn by_marks(points: &[u32], marks: &mut [u16]) -> usize
    requires { 0 < length marks.old }
    ensures { result ≡ first_repeated (read_points points.now) }
{
    let count = points.len() / 3;
    let slots = marks.len();
    for j in 0..count {
        let p = point_at(points, j);
        let s = slot_of(p, slots);
        let mark = marks[s];
        if repeats_earlier(points, j, p, slots, mark) {
            return j;
        }
        marks[s] = mark_after(mark, j);
    }
    count
}

// The same with marks, for any number of points.
fn by_many_marks(points: &[u32]) -> usize
    ensures { result ≡ first_repeated (read_points points.now) }
{
    let mut marks = [0u16; 16381];
    by_marks(points, &mut marks)
}

// The same with a table of `slots` slots, and two places for each point.
fn by_table<const PLACES: usize>(points: &[u32], slots: usize) -> usize
    requires slotted { 0 < slots }
    requires room { slots + 2 * (length points.now / 3) ≤ PLACES }
    requires small { PLACES < 65536 }
    ensures { result ≡ first_repeated (read_points points.now) }
{
    let mut table = [0u16; PLACES];
    point_table::fill(points, &mut table, slots)
}

// The same, the fastest way; for few points a table costs more than it saves. The tables are for up to 64 points and for up to 8192.
pub fn first_repeated(points: &[u32]) -> usize
    ensures { result ≡ first_repeated (read_points points.now) }
{
    if points.len() < 36 {
        return check_searches::point::first_repeated(points);
    }
    if points.len() <= 192 {
        return by_table::<379>(points, 251);
    }
    if points.len() <= 24576 {
        return by_table::<32765>(points, 16381);
    }
    by_many_marks(points)
}
