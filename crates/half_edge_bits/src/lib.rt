// A table of the directed sides of a mesh of up to 64 vertices: bit y of row x is set if x→y is a side. Each triangle has three sides.
#![tactic(auto)]

ghost use Rattle.std.specs.Prelude.{◌≡◌, ◌+◌, ◌^◌, ◌<◌};
ghost use Rattle.std.specs.Int.Bits.{bit_or};
ghost use Rattle.mesh_geometry.specs.Words.{read_triangles};
ghost use Rattle.check_searches.specs.First.{some_below};
ghost use Rattle.half_edge_chains.specs.Sides.{side_start, side_end, is_side};
ghost use Rattle.half_edge_bits.specs.Rows.{bit, Rowed};

// Whether bit k of a row is set.
fn has_bit(row: u64, k: u16) -> bool
    requires { k < 64 }
    ensures { result ≡ bit row k }
{
    (row >> (k as u64)) % 2 == 1
}

// Returns the row with bit k set.
fn with_bit(row: u64, k: u16) -> u64
    requires { k < 64 }
    ensures { result ≡ bit_or row (2 ^ k) }
{
    row | (1u64 << (k as u64))
}

// Whether one of the first `sides` sides, which the table holds, is x→y.
pub fn has_side(indices: &[u16], sides: usize, rows: &[u64], x: u16, y: u16) -> bool
    requires held { Rowed (read_triangles indices.now) sides rows.now }
    requires start { x < 64 }
    requires end { y < 64 }
    ensures { result ≡ some_below (is_side (read_triangles indices.now) x y) sides }
{
    has_bit(rows[x as usize], y)
}

// Adds side m, which is x→y, to the table of the sides before it.
pub fn add_side(indices: &[u16], m: usize, rows: &mut [u64], x: u16, y: u16)
    requires held { Rowed (read_triangles indices.now) m rows.old }
    requires start { x ≡ side_start (read_triangles indices.now) m }
    requires end { y ≡ side_end (read_triangles indices.now) m }
    requires start_fits { x < 64 }
    requires end_fits { y < 64 }
    ensures { Rowed (read_triangles indices.now) (m + 1) rows.new }
{
    rows[x as usize] = with_bit(rows[x as usize], y);
}
