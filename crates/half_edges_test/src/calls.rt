// Calls for any table that implements `SideTable`: what each asks and promises is said by the numbers of the table's type alone.
ghost use Rattle.std.specs.Prelude.{◌≡◌, true, ◌*◌, ◌≤◌, ◌<◌, length};
ghost use Rattle.mesh_geometry.specs.Words.{read_triangles};
ghost use Rattle.check_searches.specs.Indices.{AllNumbered};
ghost use Rattle.half_edges.specs.Tables.{FilledTo};
ghost use Rattle.half_edges.specs.Opens.{Opens};

use check_searches::index::first_unknown;
use half_edges::table::SideTable;
use std::io::{self, Print, Stdout};

// Fills the table up to the first triangle with a repeated side; returns the number of that triangle, or of all triangles.
fn fill<T: SideTable>(indices: &[u16], table: &mut T) -> usize
    requires empty { T.holds (read_triangles indices.now) 0 table.old }
    requires numbered { AllNumbered T.vertices indices.now }
    requires room { length indices.now ≤ T.room }
    requires few { length indices.now < 65536 }
    ensures { FilledTo T.holds (read_triangles indices.now) result table.new }
{
    half_edges::filling::fill(indices, table)
}

// Lists all sides without a reverse; returns how many there are, or more than the list has room for.
fn open_sides<T: SideTable>(indices: &[u16], table: &T, opens: &mut [u16]) -> usize
    requires all { T.holds (read_triangles indices.now) (length (read_triangles indices.now) * 3) table.now }
    requires numbered { AllNumbered T.vertices indices.now }
    requires few { length indices.now < 65536 }
    ensures { Opens (read_triangles indices.now) (length (read_triangles indices.now) * 3) opens.new result }
{
    half_edges::opens::open_sides(indices, table, opens)
}

// Whether every index is the number of one of 8 vertices.
fn numbered(indices: &[u16]) -> bool
    ensures { result ≡ true → AllNumbered 8 indices.now }
{
    indices.len() <= first_unknown(indices, 8)
}

// Writes how many triangles, from the first on, have no side in common with an earlier one; if these are all triangles, then also how many
// sides have no reverse, and which. A mesh has at most 8 vertices and 12 triangles, so it has at most 36 sides.
pub(crate) fn write<T: SideTable>(out: Stdout, indices: &[u16]) -> io::Result<()>
    requires vertices { 8 ≤ T.vertices }
    requires room { 36 ≤ T.room }
{
    if 36 < indices.len() || !numbered(indices) {
        return print!(out; ": too large\n");
    }
    let mut table = T::empty();
    let once = fill(indices, &mut table);
    print!(out; ": {once}")?;
    if indices.len() / 3 <= once {
        let mut opens = [0u16; 36];
        let count = open_sides(indices, &table, &mut opens);
        print!(out; ", {count} open")?;
        for m in opens.iter().take(count) {
            print!(out; " {m}")?;
        }
    }
    print!(out; "\n")
}
