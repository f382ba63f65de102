// A table of points as binary trees: one place for each of `slots` slots, then two places for each point. A place holds 0, or
// one more than the number of a point. The search for a point starts at the place of its slot; where it meets another point it
// goes to one of that point's two places, by the next bit of the coordinates. Points that differ in a bit go different ways, so
// no search passes more than 96 points, whatever their slots.
// Kept: a place is a number of 16 bits and no option, which would take twice the memory on the stack.
#![tactic(auto)]

ghost use Rattle.std.specs.Prelude.{◌≡◌, ◌+◌, ◌*◌, ◌/◌, ◌%◌, ◌≤◌, ◌<◌, length};
ghost use Rattle.mesh_geometry.specs.Words.{read_points};
ghost use Rattle.check_searches.specs.Points.{first_repeated};
ghost use Rattle.point_table.specs.Trees.{slot_of, path_step, PointTable, PointSought};

use check_searches::point::{lies_at, point_at};
use mesh_geometry::Point;

// Returns the slot of a point, of `slots` slots.
pub fn slot_of(p: Point, slots: usize) -> usize
    requires { 0 < slots }
    ensures slot { result ≡ slot_of slots p }
    ensures below { result < slots }
{
    ((p.u as u64 + 65 * (p.v as u64) + 4225 * (p.w as u64)) % (slots as u64)) as usize
}

// Returns the next bit of the coordinates: the lowest bit of the first.
fn next_bit(p: Point) -> usize
    ensures { (result ≡ p.u % 2) × (result ≤ 1) }
{
    (p.u % 2) as usize
}

// Returns the coordinates after one step: the lowest bit of the first is dropped, and the first becomes the last.
fn turn(p: Point) -> Point
    ensures { result ≡ path_step p }
{
    Point {
        u: p.v,
        v: p.w,
        w: p.u / 2,
    }
}

// Returns the place of a point equal to p in the table of the first `count` points, or the empty place for it.
pub fn seek(points: &[u32], count: usize, table: &[u16], slots: usize, p: Point) -> usize
    requires filled { PointTable (read_points points.now) slots count table.now }
    requires known { count ≤ length points.now / 3 }
    requires slotted { 0 < slots }
    ensures { PointSought (read_points points.now) slots count table.now p result }
{
    let mut x = slot_of(p, slots);
    let mut rest = p;
    let mut k = table[x] as usize;
    // Kept: no `for`: the search follows the places that it finds, and counts nothing.
    while 0 < k {
        if lies_at(points, k - 1, p) {
            return x;
        }
        x = slots + 2 * (k - 1) + next_bit(rest);
        rest = turn(rest);
        k = table[x] as usize;
    }
    x
}

// Puts the points into an empty table, up to the first point that equals an earlier point; returns the number of that point, or of all points.
pub fn fill(points: &[u32], table: &mut [u16], slots: usize) -> usize
    requires empty { PointTable (read_points points.now) slots 0 table.old }
    requires slotted { 0 < slots }
    requires room { slots + 2 * (length points.now / 3) ≤ length table.old }
    requires few { length points.now / 3 < 65536 }
    ensures first { result ≡ first_repeated (read_points points.now) }
    ensures filled { PointTable (read_points points.now) slots result table.new }
{
    let count = points.len() / 3;
    for j in 0..count {
        let x = seek(points, j, table, slots, point_at(points, j));
        if table[x] != 0 {
            return j;
        }
        table[x] = (j + 1) as u16;
    }
    count
}
