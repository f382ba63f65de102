// The partner of each point of a mesh: the number of the equal point of the other mesh, or the number of the other mesh's points.
ghost use Rattle.std.specs.Prelude.{◌+◌, ◌*◌, ◌/◌, ◌≤◌, ◌<◌, length};
ghost use Rattle.mesh_geometry.specs.Words.{read_points};
ghost use Rattle.point_table.specs.Trees.{PointTable};
ghost use Rattle.compare_differences.specs.Meshes.{NoneRepeated};
ghost use Rattle.compare_differences.specs.Found.{PointFound};
ghost use Rattle.compare_table_flags.specs.Flags.{Partnered};

use check_searches::point::point_at;
use mesh_geometry::Point;
use point_table::seek;

// Returns the number of the point that equals p, or the number of points, by a table of the points.
// Kept: no `Option`: a partner is stored as 16 bits, and the number of points stands for none (`Partners`).
fn find(points: &[u32], table: &[u16], slots: usize, p: Point) -> usize
    requires filled { PointTable (read_points points.now) slots (length points.now / 3) table.now }
    requires slotted { 0 < slots }
    ensures { PointFound (read_points points.now) (length points.now / 3) p result }
{
    let count = points.len() / 3;
    let x = seek(points, count, table, slots, p);
    let k = table[x] as usize;
    if k == 0 {
        return count;
    }
    k - 1
}

// Sets the partners of all points, by a table of the other mesh's points.
fn match_by(points: &[u32], others: &[u32], table: &[u16], slots: usize, partners: &mut [u16])
    requires filled { PointTable (read_points others.now) slots (length others.now / 3) table.now }
    requires slotted { 0 < slots }
    requires room { length points.now / 3 ≤ length partners.old }
    requires few { length others.now / 3 < 65536 }
    ensures { Partnered points.now others.now partners.new }
{
    for k in 0..points.len() / 3 {
        partners[k] = find(others, table, slots, point_at(points, k)) as u16;
    }
}

// The same with a table of `slots` slots, and two places for each point of the other mesh.
fn match_by_table<const PLACES: usize>(
    points: &[u32],
    others: &[u32],
    slots: usize,
    partners: &mut [u16],
)
    requires distinct { NoneRepeated others.now }
    requires slotted { 0 < slots }
    requires table_room { slots + 2 * (length others.now / 3) ≤ PLACES }
    requires small { PLACES < 65536 }
    requires room { length points.now / 3 ≤ length partners.old }
    ensures { Partnered points.now others.now partners.new }
{
    let mut table = [0u16; PLACES];
    point_table::fill(others, &mut table, slots);
    match_by(points, others, &table, slots, partners);
}

// The same with a table as large as the other mesh's points need: for up to 64 points, or for up to 8192.
pub fn match_points(points: &[u32], others: &[u32], partners: &mut [u16])
    requires distinct { NoneRepeated others.now }
    requires few { length others.now / 3 ≤ 8192 }
    requires room { length points.now / 3 ≤ length partners.old }
    ensures { Partnered points.now others.now partners.new }
{
    if others.len() <= 192 {
        match_by_table::<379>(points, others, 251, partners);
    } else {
        match_by_table::<32765>(points, others, 16381, partners);
    }
}
