// The table in lists that the caller lends to be filled, of lengths that the run alone knows: rows of bits, or chains.
ghost use Rattle.std.specs.Prelude.{◌≡◌, [], ◌∷◌, ◌*◌, ◌≤◌, ◌<◌, length, min};
ghost use Rattle.mesh_geometry.specs.Words.{read_triangles};
ghost use Rattle.check_searches.specs.Indices.{AllNumbered};
ghost use Rattle.half_edge_chains.specs.Links.{Linked, Zeros};
ghost use Rattle.half_edge_chains.specs.Sides.{Once};
ghost use Rattle.half_edge_bits.specs.Rows.{Rowed};

use crate::table::{GrowingTable, SearchedTable};

// The rows of `BitTable`: 64 rows that are all 0 are the table that holds no side.
#[derive(Drop)]
pub struct LentRows<'a> {
    pub rows: &'a mut [u64],
}

impl<'a> SearchedTable for LentRows<'a> {
    ghost extent = { λ table. record { vertices = 64; sides = 65535; lists = table.rows.ghost_name ∷ [] } };

    ghost holds = { λ ts n table. Rowed ts n table.rows.now };

    fn has_side(&self, indices: &[u16], sides: usize, x: u16, y: u16) -> bool {
        half_edge_bits::has_side(indices, sides, self.rows, x, y)
    }
}

impl<'a> GrowingTable for LentRows<'a> {
    fn add_side(&mut self, indices: &[u16], m: usize, x: u16, y: u16) {
        half_edge_bits::add_side(indices, m, self.rows, x, y);
    }
}

// The chains of `ChainTable`, for as many vertices as there are heads, and as many sides as there are links but no more than a u16 can
// number. Heads that are all 0 are the table that holds no side.
#[derive(Drop)]
pub struct LentChains<'a> {
    pub heads: &'a mut [u16],
    pub links: &'a mut [u32],
}

impl<'a> SearchedTable for LentChains<'a> {
    ghost extent = { λ table. record {
      vertices = length table.heads.now;
      sides = min (length table.links.now) 65535;
      lists = table.heads.ghost_name ∷ table.links.ghost_name ∷ [];
    } };

    ghost holds = { λ ts n table. Linked ts n table.heads.now table.links.now };

    fn has_side(&self, indices: &[u16], sides: usize, x: u16, y: u16) -> bool {
        half_edge_chains::chain::has_side(indices, sides, self.heads, self.links, x, y)
    }
}

impl<'a> GrowingTable for LentChains<'a> {
    fn add_side(&mut self, indices: &[u16], m: usize, x: u16, y: u16) {
        half_edge_chains::chain::add_side(indices, m, self.heads, self.links, x, y);
    }
}

// Fills rows that are all 0, up to the first triangle with a repeated side; returns the number of that triangle, or of all triangles.
pub fn fill_rows(indices: &[u16], rows: &mut [u64]) -> usize
    requires empty { Zeros rows.old }
    requires size { length rows.old ≡ 64 }
    requires numbered { AllNumbered 64 indices.now }
    requires few { length indices.now < 65536 }
    ensures most { result ≤ length (read_triangles indices.now) }
    ensures once { Once (read_triangles indices.now) (result * 3) }
    ensures all { result ≡ length (read_triangles indices.now) → Rowed (read_triangles indices.now) (length (read_triangles indices.now) * 3) rows.new }
{
    let mut table = LentRows { rows };
    crate::filling::fill(indices, &mut table)
}

// The same for chains whose heads are all 0.
pub fn fill_chains(indices: &[u16], heads: &mut [u16], links: &mut [u32]) -> usize
    requires empty { Zeros heads.old }
    requires numbered { AllNumbered (length heads.old) indices.now }
    requires room { length indices.now ≤ length links.old }
    requires few { length indices.now < 65536 }
    ensures most { result ≤ length (read_triangles indices.now) }
    ensures once { Once (read_triangles indices.now) (result * 3) }
    ensures all { result ≡ length (read_triangles indices.now)
        → Linked (read_triangles indices.now) (length (read_triangles indices.now) * 3) heads.new links.new }
{
    let mut table = LentChains { heads, links };
    crate::filling::fill(indices, &mut table)
}
