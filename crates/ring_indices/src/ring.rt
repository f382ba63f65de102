// A closed ring of vertices, and the line along one of its edges.
ghost use Rattle.std.specs.Prelude.{◌≡◌, ◌+◌, ◌*◌, ◌≤◌, ◌<◌, length};
ghost use Rattle.buffer.specs.Over.{Wrote};
ghost use Rattle.strip.specs.Triangles.{indices};
ghost use Rattle.strip.specs.Lines.{vertex, Follows};
ghost use Rattle.strip.specs.Strips.{strip};
ghost use Rattle.mesh_topology.specs.Band.{from};
ghost use Rattle.mesh_topology.specs.Ring.{ring_at};

use strip::line::Line;

// `total` vertices, numbered from `base`; a ring with a total of 0 is the single vertex at the centre.
#[derive(Clone, Copy, Drop)]
pub struct Ring {
    pub base: u32,
    pub total: u32,
    pub ghost small: { base + total < 65536 },
}

impl Ring {
    // Returns the line of n segments from the ring's vertex o on; it ends at the first vertex if it runs to the ring's end.
    pub(crate) fn line(self, o: u32, n: u32) -> Line
        requires few { n ≤ 64 }
        requires inside { o + n ≤ self.total }
        ensures { Follows result (from o (ring_at self.base self.total)) n }
    {
        let base = self.base;
        let end = o + n;
        let last = if end == self.total { base } else { base + end };
        Line {
            first: (base + o) as u16,
            step: 1,
            count: n,
            last: last as u16,
        }
    }

    // Writes the strip from p segments of the ring, starting at its vertex o, to a line inside.
    pub fn write_strip(
        self,
        out: &mut [u16],
        at: usize,
        o: u32,
        p: u32,
        inner: Line,
        positive: bool,
    ) -> usize
        requires few { (p ≤ 64) × (o + p ≤ self.total) }
        requires room { at + 3 * (p + inner.count) ≤ length out.old }
        ensures { Wrote out.old at (indices positive (strip (from o (ring_at self.base self.total)) (vertex inner) p inner.count)) out.new result }
    {
        let outer = self.line(o, p);
        strip_writer::write_strip(out, at, outer, inner, positive)
    }
}
