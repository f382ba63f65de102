// A strip whose outer line has two segments more than its inner line: there the lines advance by turns. The orientation is a
// const parameter, so that each orientation has a function of its own and no corners are exchanged while writing.
ghost use Rattle.std.specs.Prelude.{◌≡◌, ◌+◌, ◌*◌, ◌≤◌, length};
ghost use Rattle.buffer.specs.Over.{Wrote};
ghost use Rattle.strip.specs.Triangles.{indices};
ghost use Rattle.strip.specs.Lines.{vertex};
ghost use Rattle.strip.specs.Strips.{strip};

use strip::line::Line;
use strip::triangle::Triangle;
use strip_pairs::{write_fan, write_last, write_pairs};

// Writes pairs of steps up to the middle of the inner line, a step of the outer line, pairs up to the end of the inner line,
// and the last step of the outer line.
pub(crate) fn write_alternating<const POSITIVE: bool>(
    out: &mut [u16],
    at: usize,
    outer: Line,
    inner: Line,
) -> usize
    requires counts { outer.count ≡ inner.count + 2 }
    requires room { at + 3 * (outer.count + inner.count) ≤ length out.old }
    ensures { Wrote out.old at (indices POSITIVE (strip (vertex outer) (vertex inner) outer.count inner.count)) out.new result }
{
    let r = inner.count;
    if r == 0 {
        return write_fan(out, at, outer, inner, POSITIVE);
    }
    let h = r / 2;
    let x = outer.vertex_at(0);
    let y = inner.vertex_at(0);
    let p = write_pairs(out, at, outer, inner, 0, 0, h, x, y, POSITIVE);
    let x = p.x;
    let y = p.y;
    let u = outer.next(h, x);
    let to = strip::triangle::put_triangle(out, p.to, Triangle { a: x, b: u, c: y }, POSITIVE);
    let q = write_pairs(out, to, outer, inner, h + 1, h, r - h - 1, u, y, POSITIVE);
    write_last(out, q.to, outer, inner, q.x, q.y, POSITIVE)
}
