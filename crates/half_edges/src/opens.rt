// The sides without a reverse.
ghost use Rattle.std.specs.Prelude.{◌+◌, ◌*◌, ◌/◌, ◌<◌, length};
ghost use Rattle.mesh_geometry.specs.Words.{read_triangles};
ghost use Rattle.check_searches.specs.Indices.{AllNumbered};
ghost use Rattle.half_edges.specs.Tables.{SideAt};
ghost use Rattle.half_edges.specs.Opens.{Opens};

use crate::table::SearchedTable;
use check_searches::triangle::triangle_at;

// Appends side m to the list; returns the new count, or more than the list has room for if it is full.
fn list_side(indices: &[u16], opens: &mut [u16], count: usize, m: usize) -> usize
    requires listed { Opens (read_triangles indices.now) m opens.old count }
    requires within { m < length indices.now / 3 * 3 }
    requires small { m < 65536 }
    ensures { Opens (read_triangles indices.now) (m + 1) opens.new result }
{
    if opens.len() <= count {
        return opens.len() + 1;
    }
    opens[count] = m as u16;
    count + 1
}

// Appends side m, which is x→y, to the list if it has no reverse.
fn list_open<T: SearchedTable>(
    indices: &[u16],
    table: &T,
    opens: &mut [u16],
    count: usize,
    m: usize,
    x: u16,
    y: u16,
) -> usize
    requires all { T.holds (read_triangles indices.now) (length (read_triangles indices.now) * 3) table.now }
    requires side { SideAt (read_triangles indices.now) (T.extent table.now).vertices m x y }
    requires listed { Opens (read_triangles indices.now) m opens.old count }
    requires within { (m < length indices.now / 3 * 3) × (m < 65536) }
    ensures { Opens (read_triangles indices.now) (m + 1) opens.new result }
{
    let sides = indices.len() / 3 * 3;
    if table.has_side(indices, sides, y, x) {
        return count;
    }
    list_side(indices, opens, count, m)
}

// Appends the sides of triangle k that have no reverse.
fn list_triangle<T: SearchedTable>(
    indices: &[u16],
    k: usize,
    table: &T,
    opens: &mut [u16],
    count: usize,
) -> usize
    requires all { T.holds (read_triangles indices.now) (length (read_triangles indices.now) * 3) table.now }
    requires numbered { AllNumbered (T.extent table.now).vertices indices.now }
    requires listed { Opens (read_triangles indices.now) (k * 3) opens.old count }
    requires within { (k < length indices.now / 3) × (length indices.now < 65536) }
    ensures { Opens (read_triangles indices.now) (k * 3 + 3) opens.new result }
{
    let t = triangle_at(indices, k);
    let m = k * 3;
    let one = list_open(indices, table, opens, count, m, t.a, t.b);
    let two = list_open(indices, table, opens, one, m + 1, t.b, t.c);
    list_open(indices, table, opens, two, m + 2, t.c, t.a)
}

// Lists all sides without a reverse; returns how many there are, or more than the list has room for.
pub fn open_sides<T: SearchedTable>(indices: &[u16], table: &T, opens: &mut [u16]) -> usize
    requires all { T.holds (read_triangles indices.now) (length (read_triangles indices.now) * 3) table.now }
    requires numbered { AllNumbered (T.extent table.now).vertices indices.now }
    requires few { length indices.now < 65536 }
    ensures { Opens (read_triangles indices.now) (length (read_triangles indices.now) * 3) opens.new result }
{
    let triangles = indices.len() / 3;
    let mut count = 0;
    for k in 0..triangles {
        count = list_triangle(indices, k, table, opens, count);
    }
    count
}
