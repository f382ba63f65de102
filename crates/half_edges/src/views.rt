// Views of the table, in lists that the caller lends to be read alone: rows of bits, or chains. Sides cannot be added.
ghost use Rattle.std.specs.Prelude.{[], ◌*◌, ◌<◌, length, min};
ghost use Rattle.mesh_geometry.specs.Words.{read_triangles};
ghost use Rattle.check_searches.specs.Indices.{AllNumbered};
ghost use Rattle.half_edge_chains.specs.Links.{Linked};
ghost use Rattle.half_edge_bits.specs.Rows.{Rowed};
ghost use Rattle.half_edges.specs.Opens.{Opens};

use crate::table::SearchedTable;

// The rows of `BitTable` and `LentRows`.
#[derive(Clone, Copy)]
pub struct RowsView<'a> {
    pub rows: &'a [u64],
}

impl<'a> SearchedTable for RowsView<'a> {
    ghost extent = { λ table. record { vertices = 64; sides = 65535; lists = [] } };

    ghost holds = { λ ts n table. Rowed ts n table.rows.now };

    fn has_side(&self, indices: &[u16], sides: usize, x: u16, y: u16) -> bool {
        half_edge_bits::has_side(indices, sides, self.rows, x, y)
    }
}

// The chains of `ChainTable` and `LentChains`.
#[derive(Clone, Copy)]
pub struct ChainsView<'a> {
    pub heads: &'a [u16],
    pub links: &'a [u32],
}

impl<'a> SearchedTable for ChainsView<'a> {
    ghost extent = { λ table. record { vertices = length table.heads.now; sides = min (length table.links.now) 65535; lists = [] } };

    ghost holds = { λ ts n table. Linked ts n table.heads.now table.links.now };

    fn has_side(&self, indices: &[u16], sides: usize, x: u16, y: u16) -> bool {
        half_edge_chains::chain::has_side(indices, sides, self.heads, self.links, x, y)
    }
}

// Lists all sides without a reverse, by rows that hold all sides; returns how many there are, or more than the list has room for.
pub fn open_sides_by_rows(indices: &[u16], rows: &[u64], opens: &mut [u16]) -> usize
    requires all { Rowed (read_triangles indices.now) (length (read_triangles indices.now) * 3) rows.now }
    requires numbered { AllNumbered 64 indices.now }
    requires few { length indices.now < 65536 }
    ensures { Opens (read_triangles indices.now) (length (read_triangles indices.now) * 3) opens.new result }
{
    let table = RowsView { rows };
    crate::opens::open_sides(indices, &table, opens)
}

// The same by chains.
pub fn open_sides_by_chains(
    indices: &[u16],
    heads: &[u16],
    links: &[u32],
    opens: &mut [u16],
) -> usize
    requires all { Linked (read_triangles indices.now) (length (read_triangles indices.now) * 3) heads.now links.now }
    requires numbered { AllNumbered (length heads.now) indices.now }
    requires few { length indices.now < 65536 }
    ensures { Opens (read_triangles indices.now) (length (read_triangles indices.now) * 3) opens.new result }
{
    let table = ChainsView { heads, links };
    crate::opens::open_sides(indices, &table, opens)
}
