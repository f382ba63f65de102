// The table of the directed sides of a mesh, and its two forms in memory of their own: rows of bits for a small mesh, else chains.
ghost use Rattle.std.specs.Prelude.{◌≡◌, refl, ℕ, List, [], ◌+◌, ◌<◌, min};
ghost use Rattle.strip.specs.declared.triangle.Triangle.{Triangle};
ghost use Rattle.mesh_geometry.specs.Words.{read_triangles};
ghost use Rattle.check_searches.specs.First.{some_below};
ghost use Rattle.half_edge_chains.specs.Sides.{is_side};
ghost use Rattle.half_edge_chains.specs.Links.{Linked};
ghost use Rattle.half_edge_bits.specs.Rows.{Rowed};
ghost use Rattle.half_edges.specs.Tables.{Extent, SideAt};

// A table of sides that can be searched.
pub trait SearchedTable: Drop {
    // What a table has room for, and the lists that it was lent to write to.
    ghost extent: { Self → Extent };

    // The table holds the first n sides.
    ghost holds: { List Triangle → ℕ → Self → Type 0 };

    // Whether one of the first `sides` sides, which the table holds, is x→y.
    fn has_side(&self, indices: &[u16], sides: usize, x: u16, y: u16) -> bool
        requires held { holds (read_triangles indices.now) sides self.now }
        requires start { x < (extent self.now).vertices }
        requires end { y < (extent self.now).vertices }
        ensures { result ≡ some_below (is_side (read_triangles indices.now) x y) sides };
}

// A table that sides can be added to.
pub trait GrowingTable: SearchedTable {
    // Adds side m, which is x→y, to the table of the sides before it.
    fn add_side(&mut self, indices: &[u16], m: usize, x: u16, y: u16)
        requires held { Self.holds (read_triangles indices.now) m self.old }
        requires side { SideAt (read_triangles indices.now) (Self.extent self.old).vertices m x y }
        requires fits { m < (Self.extent self.old).sides }
        ensures added { Self.holds (read_triangles indices.now) (m + 1) self.new }
        ensures same_extent { Self.extent self.new ≡ Self.extent self.old };
}

// A table in memory of its own, of a size that its type has.
pub trait SizedTable: GrowingTable {
    // How many vertices the table has room for.
    ghost vertices: { ℕ };

    // How many sides the table has room for.
    ghost room: { ℕ };

    // Returns the table that holds no side.
    fn empty() -> Self
        ensures { (ts : List Triangle) → Self.holds ts 0 result };

    // Each table of the type has room for so many vertices and sides, and was lent no list.
    ghost one_extent: { (table : Self) → Self.extent table ≡ record { vertices = vertices; sides = room; lists = [] } };
}

// The three traits above in one. A type that implements this one has the three by the impls below, and cannot implement them itself. A file
// that calls the methods of such a type imports this trait or those three: with both, `has_side` would name two methods.
pub trait SideTable: Drop {
    // How many vertices the table has room for.
    ghost vertices: { ℕ };

    // How many sides the table has room for.
    ghost room: { ℕ };

    // The table holds the first n sides.
    ghost holds: { List Triangle → ℕ → Self → Type 0 };

    // Returns the table that holds no side.
    fn empty() -> Self
        ensures { (ts : List Triangle) → holds ts 0 result };

    // Whether one of the first `sides` sides, which the table holds, is x→y.
    fn has_side(&self, indices: &[u16], sides: usize, x: u16, y: u16) -> bool
        requires held { holds (read_triangles indices.now) sides self.now }
        requires start { x < vertices }
        requires end { y < vertices }
        ensures { result ≡ some_below (is_side (read_triangles indices.now) x y) sides };

    // Adds side m, which is x→y, to the table of the sides before it.
    fn add_side(&mut self, indices: &[u16], m: usize, x: u16, y: u16)
        requires held { holds (read_triangles indices.now) m self.old }
        requires side { SideAt (read_triangles indices.now) vertices m x y }
        requires fits { m < room }
        ensures { holds (read_triangles indices.now) (m + 1) self.new };
}

impl<T: SideTable> SearchedTable for T {
    ghost extent = { λ table. record { vertices = T.vertices; sides = T.room; lists = [] } };

    ghost holds = { T.holds };

    fn has_side(&self, indices: &[u16], sides: usize, x: u16, y: u16) -> bool {
        <T as SideTable>::has_side(self, indices, sides, x, y)
    }
}

impl<T: SideTable> GrowingTable for T {
    fn add_side(&mut self, indices: &[u16], m: usize, x: u16, y: u16) {
        <T as SideTable>::add_side(self, indices, m, x, y);
    }
}

impl<T: SideTable> SizedTable for T {
    ghost vertices = { T.vertices };

    ghost room = { T.room };

    ghost one_extent = { λ table. refl };

    fn empty() -> T {
        <T as SideTable>::empty()
    }
}

// Up to 64 vertices: bit y of row x is set if x→y is a side.
#[derive(Drop)]
pub struct BitTable {
    rows: [u64; 64],
}

impl SideTable for BitTable {
    ghost vertices = { 64 };

    ghost room = { 65535 };

    ghost holds = { λ ts n table. Rowed ts n table.rows };

    fn empty() -> BitTable {
        BitTable { rows: [0; 64] }
    }

    fn has_side(&self, indices: &[u16], sides: usize, x: u16, y: u16) -> bool {
        half_edge_bits::has_side(indices, sides, &self.rows, x, y)
    }

    fn add_side(&mut self, indices: &[u16], m: usize, x: u16, y: u16) {
        half_edge_bits::add_side(indices, m, &mut self.rows, x, y);
    }
}

// Up to POINTS vertices, and up to SIDES sides but no more than a u16 can number: the sides that start at a vertex are a chain.
#[derive(Drop)]
pub struct ChainTable<const POINTS: usize, const SIDES: usize> {
    heads: [u16; POINTS],
    links: [u32; SIDES],
}

impl<const POINTS: usize, const SIDES: usize> SideTable for ChainTable<POINTS, SIDES> {
    ghost vertices = { POINTS };

    ghost room = { min SIDES 65535 };

    ghost holds = { λ ts n table. Linked ts n table.heads table.links };

    fn empty() -> ChainTable<POINTS, SIDES> {
        ChainTable {
            heads: [0; POINTS],
            links: [0; SIDES],
        }
    }

    fn has_side(&self, indices: &[u16], sides: usize, x: u16, y: u16) -> bool {
        half_edge_chains::chain::has_side(indices, sides, &self.heads, &self.links, x, y)
    }

    fn add_side(&mut self, indices: &[u16], m: usize, x: u16, y: u16) {
        half_edge_chains::chain::add_side(indices, m, &mut self.heads, &mut self.links, x, y);
    }
}
