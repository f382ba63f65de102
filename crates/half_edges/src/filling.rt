// Fills the table with the sides of a mesh, as long as no side is repeated.
ghost use Rattle.std.specs.Prelude.{◌≡◌, true, ◌+◌, ◌*◌, ◌/◌, ◌≤◌, ◌<◌, length};
ghost use Rattle.mesh_geometry.specs.Words.{read_triangles};
ghost use Rattle.check_searches.specs.Indices.{AllNumbered};
ghost use Rattle.half_edges.specs.Tables.{SideAt, FilledTable, FilledTo};

use crate::table::GrowingTable;
use check_searches::triangle::triangle_at;

// Adds side m, which is x→y, unless the table has it already; returns whether it was new.
fn add_new<T: GrowingTable>(indices: &[u16], m: usize, table: &mut T, x: u16, y: u16) -> bool
    requires filled { FilledTable T.holds (read_triangles indices.now) m table.old }
    requires side { SideAt (read_triangles indices.now) (T.extent table.old).vertices m x y }
    requires room { m < (T.extent table.old).sides }
    ensures filled { result ≡ true → FilledTable T.holds (read_triangles indices.now) (m + 1) table.new }
    ensures same_extent { T.extent table.new ≡ T.extent table.old }
{
    if table.has_side(indices, m, x, y) {
        return false;
    }
    table.add_side(indices, m, x, y);
    true
}

// Adds the sides of triangle k until one is repeated; returns whether all were new.
fn add_triangle<T: GrowingTable>(indices: &[u16], k: usize, table: &mut T) -> bool
    requires filled { FilledTable T.holds (read_triangles indices.now) (k * 3) table.old }
    requires numbered { AllNumbered (T.extent table.old).vertices indices.now }
    requires room { length indices.now ≤ (T.extent table.old).sides }
    requires within { (k < length indices.now / 3) × (length indices.now < 65536) }
    ensures filled { result ≡ true → FilledTable T.holds (read_triangles indices.now) (k * 3 + 3) table.new }
    ensures same_extent { T.extent table.new ≡ T.extent table.old }
{
    let t = triangle_at(indices, k);
    let m = k * 3;
    if !add_new(indices, m, table, t.a, t.b) {
        return false;
    }
    if !add_new(indices, m + 1, table, t.b, t.c) {
        return false;
    }
    add_new(indices, m + 2, table, t.c, t.a)
}

// Fills the table up to the first triangle with a repeated side; returns the number of that triangle, or of all triangles.
pub fn fill<T: GrowingTable>(indices: &[u16], table: &mut T) -> usize
    requires empty { T.holds (read_triangles indices.now) 0 table.old }
    requires numbered { AllNumbered (T.extent table.old).vertices indices.now }
    requires room { length indices.now ≤ (T.extent table.old).sides }
    requires few { length indices.now < 65536 }
    ensures filled { FilledTo T.holds (read_triangles indices.now) result table.new }
    ensures same_extent { T.extent table.new ≡ T.extent table.old }
{
    let count = indices.len() / 3;
    for k in 0..count {
        if !add_triangle(indices, k, table) {
            return k;
        }
    }
    count
}
