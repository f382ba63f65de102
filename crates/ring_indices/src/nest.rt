// The triangles of a triangle patch: bands between nested rings.
ghost use Rattle.std.specs.Prelude.{◌≡◌, ◌+◌, ◌*◌, ◌≤◌, ◌<◌, length};
ghost use Rattle.buffer.specs.Over.{Wrote};
ghost use Rattle.strip.specs.Triangles.{indices};
ghost use Rattle.mesh_topology.specs.Ring.{ring_at};
ghost use Rattle.mesh_topology.specs.Band.{band};
ghost use Rattle.mesh_topology.specs.Nest.{ring_edges, nest, count};

use crate::ring::Ring;
use strip::triangle::Triangle;
use strip_blocks::Pattern;

// A ring of a triangle patch: its first vertex, and how many segments its three edges have.
#[derive(Clone, Copy, Drop)]
struct TriangleRing {
    base: u32,
    c0: u32,
    c1: u32,
    c2: u32,
    ghost few: { (c0 ≤ 64) × (c1 ≤ 64) × (c2 ≤ 64) },
    ghost small: { base < 8192 },
}

impl TriangleRing {
    // Returns the next ring inside, whose edges have r segments each.
    fn inside(self, r: u32) -> TriangleRing
        requires few { r ≤ 64 }
        requires small { self.base + (self.c0 + self.c1 + self.c2) < 8192 }
        ensures { (result.base ≡ self.base + (self.c0 + self.c1 + self.c2)) × (result.c0 ≡ r) × (result.c1 ≡ r) × (result.c2 ≡ r) }
    {
        TriangleRing {
            base: self.base + (self.c0 + self.c1 + self.c2),
            c0: r,
            c1: r,
            c2: r,
        }
    }

    // Returns the triangle of a ring of three vertices.
    fn triangle(self) -> Triangle
        ensures { result ≡ record { a = self.base; b = self.base + 1; c = self.base + 2 } }
    {
        Triangle {
            a: self.base as u16,
            b: (self.base + 1) as u16,
            c: (self.base + 2) as u16,
        }
    }

    // Writes the three strips from this ring to the ring inside, whose edges have r segments each.
    fn write_band(self, out: &mut [u16], at: usize, r: u32, positive: bool) -> usize
        requires few { r ≤ 64 }
        requires room { at + 3 * (self.c0 + self.c1 + self.c2 + 3 * r) ≤ length out.old }
        ensures { Wrote out.old at (indices positive (band (ring_at self.base (self.c0 + self.c1 + self.c2))
            (ring_edges (self.base + (self.c0 + self.c1 + self.c2)) r self.c0 self.c1 self.c2))) out.new result }
    {
        let c0 = self.c0;
        let c1 = self.c1;
        let c2 = self.c2;
        let total = c0 + c1 + c2;
        let outer = Ring {
            base: self.base,
            total,
        };
        let inner = Ring {
            base: self.base + total,
            total: 3 * r,
        };
        let w = outer.write_strip(out, at, 0, c0, inner.line(0, r), positive);
        let w = outer.write_strip(out, w, c0, c1, inner.line(r, r), positive);
        outer.write_strip(out, w, c0 + c1, c2, inner.line(2 * r, r), positive)
    }

    // The same, by `write_long_band` where that applies.
    fn write_wide_band(self, out: &mut [u16], at: usize, r: u32, pattern: &Pattern) -> usize
        requires wide { (10 ≤ r) × (r ≤ 62) }
        requires room { at + 3 * (self.c0 + self.c1 + self.c2 + 3 * r) ≤ length out.old }
        ensures { Wrote out.old at (indices pattern.now.positive (band (ring_at self.base (self.c0 + self.c1 + self.c2))
            (ring_edges (self.base + (self.c0 + self.c1 + self.c2)) r self.c0 self.c1 self.c2))) out.new result }
    {
        let p = r + 2;
        if self.c0 == p && self.c1 == p && self.c2 == p {
            write_long_band(out, at, self.base, r, pattern)
        } else {
            self.write_band(out, at, r, pattern.positive)
        }
    }
}

// Writes the band from a ring whose edges have r + 2 segments to the ring inside, four pairs at a time. Each of the first two strips
// writes one triangle too many, and the next strip overwrites it.
fn write_long_band(out: &mut [u16], at: usize, base: u32, r: u32, pattern: &Pattern) -> usize
    requires wide { (10 ≤ r) × (r ≤ 62) × (base < 8192) }
    requires room { at + 3 * (3 * (r + 2) + 3 * r) ≤ length out.old }
    ensures { Wrote out.old at (indices pattern.now.positive (band (ring_at base (r + 2 + (r + 2) + (r + 2)))
        (ring_edges (base + (r + 2 + (r + 2) + (r + 2))) r (r + 2) (r + 2) (r + 2)))) out.new result }
{
    let p = r + 2;
    let x0 = base as u16;
    let x1 = (base + p) as u16;
    let x2 = (base + 2 * p) as u16;
    let inside = base + 3 * p;
    let y0 = inside as u16;
    let y1 = (inside + r) as u16;
    let y2 = (inside + 2 * r) as u16;
    let w = strip_blocks::write_open(out, at, x0, y0, r, pattern);
    let w = strip_blocks::write_open(out, w, x1, y1, r, pattern);
    strip_blocks::write_long(out, w, x2, y2, x0, y0, r, pattern)
}

// Writes band after band inwards; for odd n the innermost ring is one more triangle.
pub fn write_nest(
    out: &mut [u16],
    at: usize,
    c0: u32,
    c1: u32,
    c2: u32,
    n: u32,
    positive: bool,
) -> usize
    requires sizes { (c0 ≤ 64) × (c1 ≤ 64) × (c2 ≤ 64) × (n ≤ 64) }
    requires room { at + 3 * count c0 c1 c2 n ≤ length out.old }
    ensures { Wrote out.old at (indices positive (nest 0 c0 c1 c2 n)) out.new result }
{
    let mut to = at;
    let mut ring = TriangleRing {
        base: 0,
        c0,
        c1,
        c2,
    };
    let mut left = n;
    if 12 <= n {
        let pattern = Pattern::new(positive);
        // Kept: the first loop hands its ring and its count on to the second, and a turn takes off two segments, so no range serves both.
        'long: while 12 <= left {
            left -= 2;
            to = ring.write_wide_band(out, to, left, &pattern);
            ring = ring.inside(left);
        }
    }
    while 2 <= left {
        left -= 2;
        to = ring.write_band(out, to, left, positive);
        ring = ring.inside(left);
    }
    if left == 0 {
        return to;
    }
    strip::triangle::put_triangle(out, to, ring.triangle(), positive)
}
