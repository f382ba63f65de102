// Writes a strip by the rule, step by step.
#![tactic(auto)]

mod walk;

ghost use Rattle.std.specs.Prelude.{◌+◌, ◌*◌, ◌≤◌, length};
ghost use Rattle.buffer.specs.Over.{Wrote};
ghost use Rattle.strip.specs.Triangles.{indices};
ghost use Rattle.strip.specs.Lines.{vertex};
ghost use Rattle.strip.specs.Strips.{strip};

use strip::line::Line;

// Writes a strip with any two segment counts.
pub fn write_walk(out: &mut [u16], at: usize, outer: Line, inner: Line, positive: bool) -> usize
    requires { at + 3 * (outer.count + inner.count) ≤ length out.old }
    ensures { Wrote out.old at (indices positive (strip (vertex outer) (vertex inner) outer.count inner.count)) out.new result }
{
    let steps = outer.count + inner.count;
    let mut walk = walk::begin(outer, inner);
    let mut to = at;
    for _step in 0..steps {
        let t = walk::advance(outer, inner, walk);
        to = strip::triangle::put_triangle(out, to, t.triangle, positive);
        walk = t.walk;
    }
    to
}
