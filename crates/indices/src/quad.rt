// The triangles of a quad patch: four strips around the inner grid, then the grid's cells.
ghost use Rattle.std.specs.Prelude.{◌≡◌, ◌+◌, ◌-◌, ◌*◌, ◌≤◌, ◌<◌, length};
ghost use Rattle.buffer.specs.Over.{Wrote};
ghost use Rattle.strip.specs.Triangles.{indices};
ghost use Rattle.mesh_topology.specs.Ring.{ring_at};
ghost use Rattle.mesh_topology.specs.Band.{band};
ghost use Rattle.mesh_topology.specs.Quad.{grid_at, grid_edges, quad, quad_count};

use grid_indices::grid::Grid;
use ring_indices::ring::Ring;

// The outline of a quad patch: how many segments its four edges have, in walk order. Its vertices are numbered from 0.
#[derive(Clone, Copy, Drop)]
pub struct Outline {
    pub c0: u32,
    pub c1: u32,
    pub c2: u32,
    pub c3: u32,
    pub ghost few: { (c0 ≤ 64) × (c1 ≤ 64) × (c2 ≤ 64) × (c3 ≤ 64) },
}

impl Outline {
    // Writes the strips to the nearest lines of the grid, in walk order.
    fn write_frame(self, out: &mut [u16], at: usize, grid: Grid, positive: bool) -> usize
        requires { at + 3 * (self.c0 + self.c1 + self.c2 + self.c3 + 2 * grid.a + 2 * grid.b) ≤ length out.old }
        ensures { Wrote out.old at (indices positive (band (ring_at 0 (self.c0 + self.c1 + self.c2 + self.c3))
            (grid_edges (grid_at grid.start grid.width) grid.a grid.b self.c0 self.c1 self.c2 self.c3))) out.new result }
    {
        let c0 = self.c0;
        let c1 = self.c1;
        let c2 = self.c2;
        let c3 = self.c3;
        let ring = Ring {
            base: 0,
            total: c0 + c1 + c2 + c3,
        };
        let w = ring.write_strip(out, at, 0, c0, grid.left(), positive);
        let w = ring.write_strip(out, w, c0, c1, grid.bottom(), positive);
        let w = ring.write_strip(out, w, c0 + c1, c2, grid.right(), positive);
        ring.write_strip(out, w, c0 + c1 + c2, c3, grid.top(), positive)
    }

    // Writes all triangles of the patch; the grid has m - 1 rows of n - 1 vertices, numbered after the outline.
    pub fn write_quad(self, out: &mut [u16], at: usize, m: u32, n: u32, positive: bool) -> usize
        requires inner { (2 ≤ m) × (m ≤ 64) × (2 ≤ n) × (n ≤ 64) }
        requires room { at + 3 * quad_count self.c0 self.c1 self.c2 self.c3 m n ≤ length out.old }
        ensures { Wrote out.old at (indices positive (quad 0 self.c0 self.c1 self.c2 self.c3 m n)) out.new result }
    {
        let grid = Grid {
            start: self.c0 + self.c1 + self.c2 + self.c3,
            width: n - 1,
            a: m - 2,
            b: n - 2,
        };
        let w = self.write_frame(out, at, grid, positive);
        grid_indices::cells::write_cells(out, w, grid, positive)
    }
}
