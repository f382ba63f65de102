// The positions of the points of an edge, as a row of words.
#![tactic(auto)]

mod carry;

ghost use Rattle.std.specs.Prelude.{◌≡◌, ◌+◌, ◌≤◌, ◌<◌, length};
ghost use Rattle.edge.specs.Positions.{entry};
ghost use Rattle.edge.specs.Rows.{edge_row, RowAt, RowFilled};
ghost use Rattle.edge.specs.Table.{table};
ghost use Rattle.level.specs.Segments.{Valid};

use level::Segments;

// Writes the row of an edge's positions from word `from` on, two points per turn, from the middle outwards. From turn to turn the distance
// from the middle grows by one segment, so the dividend grows by the same number, and no turn needs a division.
pub fn fill_row(rows: &mut [u32], from: usize, s: Segments)
    requires valid { Valid s.count s.scaled }
    requires room { from + s.count < length rows.old }
    ensures { RowFilled rows.old from s.count s.scaled rows.new }
{
    let n = s.count;
    let l = s.scaled;
    let step = carry::divide(4294967296, l);
    let mut reach = carry::divide(2147483648 * ((n % 2) as u64), l);
    for left in (0..n / 2 + 1).rev() {
        let k = reach.quotient.min(32768);
        rows[from + left as usize] = 32768 - k;
        rows[from + (n - left) as usize] = 32768 + k;
        reach = carry::sum(reach, step, l);
    }
}

// Returns the row of an edge, which `rows` holds from word `from` on.
pub fn row_from(rows: &[u32], from: usize, s: Segments) -> &[u32]
    requires { RowAt rows.now from s.count s.scaled }
    ensures { result.now ≡ edge_row s.count s.scaled }
{
    let n = s.count as usize;
    &rows[from..from + n + 1]
}

// Returns the positions of an edge's points, followed by zeros, by division.
pub fn divided_row(s: Segments) -> [u32; 65]
    requires { Valid s.count s.scaled }
    ensures { result ≡ table (entry s.count s.scaled) 65 }
{
    let mut out = [0u32; 65];
    fill_row(&mut out, 0, s);
    out
}
