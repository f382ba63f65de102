// The triangles of the cells of a grid.
ghost use Rattle.std.specs.Prelude.{◌+◌, ◌*◌, ◌≤◌, ◌<◌, length};
ghost use Rattle.buffer.specs.Over.{Wrote};
ghost use Rattle.strip.specs.Triangles.{indices};
ghost use Rattle.mesh_topology.specs.Quad.{grid_at, cells};
ghost use Rattle.grid_indices.specs.Grids.{cell_words, row_words};

use crate::grid::Grid;
use strip::triangle::Triangle;

// Writes the two triangles of the cell with the corners p, p + 1 on one row and q, q + 1 on the next.
fn write_cell(out: &mut [u16], at: usize, p: u32, q: u32, positive: bool) -> usize
    requires small { (p < 65535) × (q < 65535) }
    requires room { at + 6 ≤ length out.old }
    ensures { Wrote out.old at (cell_words positive p q) out.new result }
{
    let lower = Triangle {
        a: p as u16,
        b: (p + 1) as u16,
        c: (q + 1) as u16,
    };
    let upper = Triangle {
        a: p as u16,
        b: (q + 1) as u16,
        c: q as u16,
    };
    let w = strip::triangle::put_triangle(out, at, lower, positive);
    strip::triangle::put_triangle(out, w, upper, positive)
}

// Writes a row of cells, from vertex `first` on.
fn write_row(out: &mut [u16], at: usize, first: u32, width: u32, b: u32, positive: bool) -> usize
    requires small { first + width + b < 65535 }
    requires room { at + 6 * b ≤ length out.old }
    ensures { Wrote out.old at (row_words positive first width b) out.new result }
{
    let mut to = at;
    for c in 0..b {
        let p = first + c;
        to = write_cell(out, to, p, p + width, positive);
    }
    to
}

// Writes all cells, row by row.
fn write_each(out: &mut [u16], at: usize, grid: Grid, positive: bool) -> usize
    requires { at + 6 * (grid.a * grid.b) ≤ length out.old }
    ensures { Wrote out.old at (indices positive (cells (grid_at grid.start grid.width) grid.a grid.b)) out.new result }
{
    let mut to = at;
    for r in 0..grid.a {
        let first = grid.start + r * grid.width;
        to = write_row(out, to, first, grid.width, grid.b, positive);
    }
    to
}

// Writes all cells. Each row is the first row, shifted by the row's number times `width`; copying does not pay for fewer than ten cells.
pub fn write_cells(out: &mut [u16], at: usize, grid: Grid, positive: bool) -> usize
    requires { at + 6 * (grid.a * grid.b) ≤ length out.old }
    ensures { Wrote out.old at (indices positive (cells (grid_at grid.start grid.width) grid.a grid.b)) out.new result }
{
    if grid.a * grid.b < 10 {
        return write_each(out, at, grid, positive);
    }
    write_row(out, at, grid.start, grid.width, grid.b, positive);
    let n = 6 * grid.b as usize;
    shifted_copies::write_copies(out, at, n, grid.a as usize, grid.width as usize)
}
