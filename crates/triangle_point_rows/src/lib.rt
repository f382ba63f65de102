// The points of a triangle patch from rows of places: rings of three edges, from the outline inwards, and the centre. The rows of the
// public functions have the places of an edge, its end included.
#![tactic(auto)]

ghost use Rattle.std.specs.Prelude.{◌+◌, ◌-◌, ◌*◌, ◌%◌, ◌≤◌, ◌<◌, ◌≡◌, [], ◌∷◌, length, take};
ghost use Rattle.buffer.specs.Over.{Wrote, flat};
ghost use Rattle.mesh_geometry.specs.Edge.{ring};
ghost use Rattle.mesh_geometry.specs.TrianglePoints.{triangle_place};
ghost use Rattle.mesh_geometry.specs.Words.{vertex_words};
ghost use Rattle.vertices.specs.Rows.{place_in, listed, whole_edge, ClearOfEnds, GoodRow};
ghost use Rattle.vertices.specs.Edges.{edge_points};
ghost use Rattle.triangle_point_rows.specs.Rings.{ring_points, rings_of, Inward, sums, Laid};
ghost use Rattle.triangle_point_rows.specs.Parts.{triangle_outline, triangle_inside};

use vertices::place::triangle_place;

// Writes edge k of the ring `depth` units inside, a point for each place.
fn write_edge(out: &mut [u32], at: usize, row: &[u32], k: u32, depth: u32) -> usize
    requires edge { (k < 3) × (depth ≤ 65536) }
    requires clear { ClearOfEnds depth (listed row.now) }
    requires room { at + 3 * length row.now ≤ length out.old }
    ensures { Wrote out.old at (vertex_words (edge_points triangle_place k (listed row.now) depth)) out.new result }
{
    let high = 196608 - depth;
    let mut to = at;
    for x in row {
        let p = triangle_place(k, *x, depth, high);
        to = buffer::put3(out, to, p.u, p.v, p.w);
    }
    to
}

// Writes the edges of the outline, from rows without their ends.
fn write_edges(out: &mut [u32], at: usize, e0: &[u32], e1: &[u32], e2: &[u32]) -> usize
    requires clear { ClearOfEnds 0 (listed e0.now) × ClearOfEnds 0 (listed e1.now) × ClearOfEnds 0 (listed e2.now) }
    requires room { at + 3 * length (ring triangle_place 0 (listed e0.now ∷ listed e1.now ∷ listed e2.now ∷ []) 0) ≤ length out.old }
    ensures { Wrote out.old at (vertex_words (ring triangle_place 0 (listed e0.now ∷ listed e1.now ∷ listed e2.now ∷ []) 0)) out.new result }
{
    let w = write_edge(out, at, e0, 0, 0);
    let w = write_edge(out, w, e1, 1, 0);
    write_edge(out, w, e2, 2, 0)
}

// Writes an inner ring; each edge is without its end, and the first place is the ring's depth.
fn write_ring(out: &mut [u32], at: usize, row: &[u32]) -> usize
    requires some { 0 < length row.now }
    requires clear { ClearOfEnds (place_in row.now 0) (listed row.now) }
    requires room { at + 3 * length (ring_points row.now) ≤ length out.old }
    ensures { Wrote out.old at (vertex_words (ring_points row.now)) out.new result }
{
    let depth = row[0];
    let w = write_edge(out, at, row, 0, depth);
    let w = write_edge(out, w, row, 1, depth);
    write_edge(out, w, row, 2, depth)
}

// Writes a ring and all rings inside it. The next ring has the same places without the first and the last; the innermost ring has three
// points, or is the centre.
fn write_rings(out: &mut [u32], at: usize, row: &[u32]) -> usize
    requires inward { Inward row.now }
    requires room { at + 3 * length (rings_of row.now) ≤ length out.old }
    ensures { Wrote out.old at (vertex_words (rings_of row.now)) out.new result }
{
    let mut to = at;
    let mut inner = row;
    // Kept: each turn goes on with the middle of the row, and counts nothing.
    while 3 <= inner.len() {
        let end = inner.len() - 1;
        to = write_ring(out, to, &inner[0..end]);
        inner = &inner[1..end];
    }
    if inner.len() == 1 {
        return buffer::put3(out, to, 65536, 65536, 65536);
    }
    write_ring(out, to, &inner[0..1])
}

// What is added to the three words of each point of a list, modulo 2^32.
#[derive(Clone, Copy, Drop)]
struct Shift {
    u: u32,
    v: u32,
    w: u32,
}

impl Shift {
    // Returns eight points of `base`, three words each, shifted.
    fn eight(self, base: &[u32], from: usize) -> [u32; 24]
        requires { from + 24 ≤ length base.now }
        ensures { result ≡ flat (sums base.now from self.u self.v self.w) 0 8 }
    {
        let mut words = [0u32; 24];
        let mut to = 0usize;
        for i in 0..8 {
            let j = from + 3 * i;
            let u = base[j].wrapping_add(self.u);
            let v = base[j + 1].wrapping_add(self.v);
            let w = base[j + 2].wrapping_add(self.w);
            to = buffer::put3(&mut words, to, u, v, w);
        }
        words
    }

    fn write_eight(self, out: &mut [u32], at: usize, base: &[u32], from: usize) -> usize
        requires source { from + 24 ≤ length base.now }
        requires room { at + 24 ≤ length out.old }
        ensures { Wrote out.old at (flat (sums base.now from self.u self.v self.w) 0 8) out.new result }
    {
        let words = self.eight(base, from);
        buffer::put_all(out, at, &words)
    }

    fn write_eights(self, out: &mut [u32], at: usize, base: &[u32], from: usize, k: usize) -> usize
        requires source { from + 24 * k ≤ length base.now }
        requires room { at + 24 * k ≤ length out.old }
        ensures { Wrote out.old at (flat (sums base.now from self.u self.v self.w) 0 (8 * k)) out.new result }
    {
        let mut to = at;
        for i in 0..k {
            to = self.write_eight(out, to, base, from + 24 * i);
        }
        to
    }

    // Writes n points of `base`, at least eight, shifted. It writes the first eight, then blocks of eight that end at the last point; so
    // it writes some points twice, with the same words.
    fn write_run(self, out: &mut [u32], at: usize, base: &[u32], from: usize, n: usize) -> usize
        requires source { (8 ≤ n) × (from + 3 * n ≤ length base.now) }
        requires room { at + 3 * n ≤ length out.old }
        ensures { Wrote out.old at (flat (sums base.now from self.u self.v self.w) 0 n) out.new result }
    {
        let k = (n - 1) / 8;
        let m = n - 8 * k;
        self.write_eight(out, at, base, from);
        self.write_eights(out, at + 3 * m, base, from + 3 * m, k)
    }
}

// Writes an inner ring, each edge without its end, from the points of the outline at the ring's places: `base` holds those of edge 0,
// `other` those of edge 1. The words of edge 2 are those of `base` from the next word on.
fn write_wide_ring(
    out: &mut [u32],
    at: usize,
    base: &[u32],
    other: &[u32],
    from: usize,
    row: &[u32],
) -> usize
    requires long { 9 ≤ length row.now }
    requires laid { Laid base.now other.now from row.now }
    requires clear { ClearOfEnds (place_in (take (length row.now - 1) row.now) 0) (listed (take (length row.now - 1) row.now)) }
    requires room { at + 3 * length (ring_points (take (length row.now - 1) row.now)) ≤ length out.old }
    ensures { Wrote out.old at (vertex_words (ring_points (take (length row.now - 1) row.now))) out.new result }
{
    let n = row.len() - 1;
    let d = row[0];
    let less = d.wrapping_neg();
    let more = 2 * d;
    let first = Shift {
        u: more,
        v: less,
        w: less,
    };
    let second = Shift {
        u: less,
        v: more,
        w: less,
    };
    let third = Shift {
        u: less,
        v: less,
        w: more,
    };
    let w = first.write_run(out, at, base, from, n);
    let w = second.write_run(out, w, other, from, n);
    third.write_run(out, w, base, from + 1, n)
}

// Writes the same rings as `write_rings`; where edges have eight segments or more, eight points at a time.
fn write_laid_rings(out: &mut [u32], at: usize, base: &[u32], other: &[u32], row: &[u32]) -> usize
    requires inward { Inward row.now }
    requires laid { Laid base.now other.now 0 row.now }
    requires room { at + 3 * length (rings_of row.now) ≤ length out.old }
    ensures { Wrote out.old at (vertex_words (rings_of row.now)) out.new result }
{
    let mut to = at;
    let mut inner = row;
    let mut from = 0usize;
    // Kept: each turn goes on with the middle of the row, until a row is too short for this form.
    while 9 <= inner.len() {
        to = write_wide_ring(out, to, base, other, from, inner);
        let last = inner.len() - 1;
        inner = &inner[1..last];
        from += 3;
    }
    write_rings(out, to, inner)
}

// Lays out the outline's points at the places of the row, and writes all rings from them.
// Kept: arrays that have room for the longest row, since nothing here uses the heap.
fn write_wide_rings(out: &mut [u32], at: usize, row: &[u32]) -> usize
    requires inward { Inward row.now × (length row.now ≤ 65) }
    requires room { at + 3 * length (rings_of row.now) ≤ length out.old }
    ensures { Wrote out.old at (vertex_words (rings_of row.now)) out.new result }
{
    let mut base = [0u32; 195];
    let mut other = [0u32; 195];
    write_edge(&mut base, 0, row, 0, 0);
    write_edge(&mut other, 0, row, 1, 0);
    write_laid_rings(out, at, &base, &other, row)
}

// Writes all rings the faster way: for few places the points of the outline cost more than they save.
fn write_all_rings(out: &mut [u32], at: usize, row: &[u32]) -> usize
    requires { (Inward row.now) × (at + 3 * length (rings_of row.now) ≤ length out.old) }
    ensures { Wrote out.old at (vertex_words (rings_of row.now)) out.new result }
{
    if row.len() < 16 || 65 < row.len() {
        write_rings(out, at, row)
    } else {
        write_wide_rings(out, at, row)
    }
}

// Writes the outline; each row has the places of an edge, its end included.
pub fn write_outline(out: &mut [u32], at: usize, e0: &[u32], e1: &[u32], e2: &[u32]) -> usize
    requires rows { GoodRow e0.now × GoodRow e1.now × GoodRow e2.now }
    requires room { at + 3 * length (triangle_outline (whole_edge e0.now) (whole_edge e1.now) (whole_edge e2.now)) ≤ length out.old }
    ensures { Wrote out.old at (vertex_words (triangle_outline (whole_edge e0.now) (whole_edge e1.now) (whole_edge e2.now))) out.new result }
{
    let n0 = e0.len() - 1;
    let n1 = e1.len() - 1;
    let n2 = e2.len() - 1;
    write_edges(out, at, &e0[0..n0], &e1[0..n1], &e2[0..n2])
}

// The rings inside the outline, or the centre.
pub fn write_inside(out: &mut [u32], at: usize, row: &[u32]) -> usize
    requires good { GoodRow row.now × (3 ≤ length row.now) }
    requires room { at + 3 * length (triangle_inside (whole_edge row.now)) ≤ length out.old }
    ensures { Wrote out.old at (vertex_words (triangle_inside (whole_edge row.now))) out.new result }
{
    let n = row.len() - 1;
    write_all_rings(out, at, &row[1..n])
}

// Kept: two functions with one contract, as the caller knows which is faster; a flag in place of the names is no plainer.
// The same point by point, which is faster for small rings.
pub fn write_small_inside(out: &mut [u32], at: usize, row: &[u32]) -> usize
    requires good { GoodRow row.now × (3 ≤ length row.now) }
    requires room { at + 3 * length (triangle_inside (whole_edge row.now)) ≤ length out.old }
    ensures { Wrote out.old at (vertex_words (triangle_inside (whole_edge row.now))) out.new result }
{
    let n = row.len() - 1;
    write_rings(out, at, &row[1..n])
}
