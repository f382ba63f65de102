// Writes a strip the faster way: in pairs of steps where the rule is known to give them, else step by step by the rule.
#![tactic(auto)]

mod alternate;

ghost use Rattle.std.specs.Prelude.{◌+◌, ◌*◌, ◌≤◌, length};
ghost use Rattle.buffer.specs.Over.{Wrote};
ghost use Rattle.strip.specs.Triangles.{indices};
ghost use Rattle.strip.specs.Lines.{vertex};
ghost use Rattle.strip.specs.Strips.{strip};

use strip::line::Line;

// Writes pairs of steps if the outer line has two segments more, as in nearly all strips; else step by step.
pub fn write_strip(out: &mut [u16], at: usize, outer: Line, inner: Line, positive: bool) -> usize
    requires { at + 3 * (outer.count + inner.count) ≤ length out.old }
    ensures { Wrote out.old at (indices positive (strip (vertex outer) (vertex inner) outer.count inner.count)) out.new result }
{
    let p = outer.count;
    let r = inner.count;
    if p == r + 2 {
        if positive {
            return alternate::write_alternating::<true>(out, at, outer, inner);
        }
        return alternate::write_alternating::<false>(out, at, outer, inner);
    }
    strip_walk::write_walk(out, at, outer, inner, positive)
}
