// Points in rows: the inner points of a quad patch, and those of isolines.
ghost use Rattle.std.specs.Prelude.{◌≡◌, ◌+◌, ◌*◌, ◌%◌, ◌≤◌, length};
ghost use Rattle.buffer.specs.Over.{Wrote};
ghost use Rattle.mesh_geometry.specs.Words.{vertex_words};
ghost use Rattle.vertices.specs.Grids.{row_points, grid_points, with_second};

// Writes a row of points at height v, one for each place along u.
fn write_row(out: &mut [u32], at: usize, columns: &[u32], v: u32) -> usize
    requires { at + 3 * length columns.now ≤ length out.old }
    ensures { Wrote out.old at (vertex_words (row_points columns.now v)) out.new result }
{
    let mut to = at;
    for u in columns {
        to = buffer::put3(out, to, *u, v, 0);
    }
    to
}

// Sets the height of each point of a row to v.
fn raise(row: &mut [u32], v: u32)
    requires { length row.old % 3 ≡ 0 }
    ensures { row.new ≡ with_second v row.old }
{
    for i in 0..row.len() / 3 {
        row[3 * i + 1] = v;
    }
}

// Writes a row for each place along v, point by point.
pub fn write_each(out: &mut [u32], at: usize, rows: &[u32], columns: &[u32]) -> usize
    requires { at + 3 * (length rows.now * length columns.now) ≤ length out.old }
    ensures { Wrote out.old at (vertex_words (grid_points rows.now columns.now)) out.new result }
{
    let mut to = at;
    for v in rows {
        to = write_row(out, to, columns, *v);
    }
    to
}

// Kept: an array that has room for the longest row, since nothing here uses the heap.
// The same from one row, of which only the heights change.
fn write_raised(out: &mut [u32], at: usize, rows: &[u32], columns: &[u32]) -> usize
    requires short { length columns.now ≤ 65 }
    requires room { at + 3 * (length rows.now * length columns.now) ≤ length out.old }
    ensures { Wrote out.old at (vertex_words (grid_points rows.now columns.now)) out.new result }
{
    let words = 3 * columns.len();
    let mut room = [0u32; 195];
    let row = &mut room[..words];
    write_row(row, 0, columns, 0);
    let mut to = at;
    for v in rows {
        raise(row, *v);
        to = buffer::put_all(out, to, row);
    }
    to
}

// The same, the faster way: preparing a row does not pay for few or short rows.
pub fn write_grid(out: &mut [u32], at: usize, rows: &[u32], columns: &[u32]) -> usize
    requires { at + 3 * (length rows.now * length columns.now) ≤ length out.old }
    ensures { Wrote out.old at (vertex_words (grid_points rows.now columns.now)) out.new result }
{
    let n = columns.len();
    if n < 16 || 65 < n || rows.len() < 8 {
        write_each(out, at, rows, columns)
    } else {
        write_raised(out, at, rows, columns)
    }
}
