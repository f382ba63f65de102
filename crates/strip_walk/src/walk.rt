// The walk along a strip, one triangle per step.
ghost use Rattle.std.specs.Prelude.{◌+◌, ◌≤◌, ◌<◌};
ghost use Rattle.strip_walk.specs.Walks.{Standing, Advanced, AtStart};

use strip::line::Line;
use strip::state::Strip;
use strip::triangle::Triangle;

// The state of a strip, with the vertices x and y reached on the outer and the inner line.
#[derive(Clone, Copy, Drop)]
pub struct Walk {
    pub strip: Strip,
    pub x: u16,
    pub y: u16,
}

// The triangle of a step, and the walk after it.
#[derive(Clone, Copy, Drop)]
pub struct Progress {
    pub triangle: Triangle,
    pub walk: Walk,
}

pub(crate) fn begin(outer: Line, inner: Line) -> Walk
    ensures { AtStart outer inner result }
{
    let p = outer.count;
    let r = inner.count;
    let x = outer.vertex_at(0);
    let y = inner.vertex_at(0);
    Walk {
        strip: Strip { a: 0, b: 0, p, r },
        x,
        y,
    }
}

pub(crate) fn advance(outer: Line, inner: Line, w: Walk) -> Progress
    requires stands { Standing outer inner w }
    requires goes_on { w.strip.a + w.strip.b < w.strip.p + w.strip.r }
    ensures { Advanced outer inner w result }
{
    let x = w.x;
    let y = w.y;
    let s = w.strip;
    let a = s.a;
    let b = s.b;
    let t = s.step();
    let strip = t.next;
    if t.outer {
        let z = outer.after(a, x);
        Progress {
            triangle: Triangle { a: x, b: z, c: y },
            walk: Walk { strip, x: z, y },
        }
    } else {
        let z = inner.after(b, y);
        Progress {
            triangle: Triangle { a: x, b: z, c: y },
            walk: Walk { strip, x, y: z },
        }
    }
}
