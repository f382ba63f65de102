// The points of a quad patch from rows of places, each with the places of an edge, its end included: the outline of four edges, and
// the inner grid.
#![tactic(auto)]

ghost use Rattle.std.specs.Prelude.{◌+◌, ◌*◌, ◌≤◌, ◌<◌, [], ◌∷◌, length};
ghost use Rattle.buffer.specs.Over.{Wrote};
ghost use Rattle.mesh_geometry.specs.Edge.{ring};
ghost use Rattle.mesh_geometry.specs.QuadPoints.{quad_place};
ghost use Rattle.mesh_geometry.specs.Words.{vertex_words};
ghost use Rattle.vertices.specs.Rows.{listed, whole_edge, ClearOfEnds, GoodRow};
ghost use Rattle.vertices.specs.Edges.{edge_points};
ghost use Rattle.quad_point_rows.specs.Parts.{quad_outline, quad_inside};

use vertices::place::quad_place;

// Kept: `triangle_point_rows` has this loop for its points; a closure for the point would need clauses on what it requires and gives.
// Writes the points of edge k of the outline, one per place.
fn write_edge(out: &mut [u32], at: usize, row: &[u32], k: u32) -> usize
    requires edge { k < 4 }
    requires clear { ClearOfEnds 0 (listed row.now) }
    requires room { at + 3 * length row.now ≤ length out.old }
    ensures { Wrote out.old at (vertex_words (edge_points quad_place k (listed row.now) 0)) out.new result }
{
    let mut to = at;
    for x in row {
        let p = quad_place(k, *x);
        to = buffer::put3(out, to, p.u, p.v, p.w);
    }
    to
}

// Writes the edges of the outline from rows without their ends.
fn write_edges(out: &mut [u32], at: usize, e0: &[u32], e1: &[u32], e2: &[u32], e3: &[u32]) -> usize
    requires clear { ClearOfEnds 0 (listed e0.now) × ClearOfEnds 0 (listed e1.now) × ClearOfEnds 0 (listed e2.now) × ClearOfEnds 0 (listed e3.now) }
    requires room { at + 3 * length (ring quad_place 0 (listed e0.now ∷ listed e1.now ∷ listed e2.now ∷ listed e3.now ∷ []) 0) ≤ length out.old }
    ensures { Wrote out.old at (vertex_words (ring quad_place 0 (listed e0.now ∷ listed e1.now ∷ listed
        e2.now ∷ listed e3.now ∷ []) 0)) out.new result }
{
    let w = write_edge(out, at, e0, 0);
    let w = write_edge(out, w, e1, 1);
    let w = write_edge(out, w, e2, 2);
    write_edge(out, w, e3, 3)
}

// Writes the outline.
pub fn write_outline(
    out: &mut [u32],
    at: usize,
    e0: &[u32],
    e1: &[u32],
    e2: &[u32],
    e3: &[u32],
) -> usize
    requires rows { GoodRow e0.now × GoodRow e1.now × GoodRow e2.now × GoodRow e3.now }
    requires room { at + 3 * length (quad_outline (whole_edge e0.now) (whole_edge e1.now) (whole_edge e2.now) (whole_edge e3.now)) ≤ length out.old }
    ensures { Wrote out.old at (vertex_words (quad_outline (whole_edge e0.now) (whole_edge e1.now)
        (whole_edge e2.now) (whole_edge e3.now))) out.new result }
{
    let n0 = e0.len() - 1;
    let n1 = e1.len() - 1;
    let n2 = e2.len() - 1;
    let n3 = e3.len() - 1;
    write_edges(out, at, &e0[0..n0], &e1[0..n1], &e2[0..n2], &e3[0..n3])
}

// Writes the inner grid.
pub fn write_inside(out: &mut [u32], at: usize, rows: &[u32], columns: &[u32]) -> usize
    requires rows { GoodRow rows.now × GoodRow columns.now }
    requires room { at + 3 * length (quad_inside (whole_edge rows.now) (whole_edge columns.now)) ≤ length out.old }
    ensures { Wrote out.old at (vertex_words (quad_inside (whole_edge rows.now) (whole_edge columns.now))) out.new result }
{
    let m = rows.len() - 1;
    let n = columns.len() - 1;
    vertices::grid::write_grid(out, at, &rows[1..m], &columns[1..n])
}

// Kept: two functions with one contract, as the caller knows which is faster; a flag in place of the names is no plainer.
// The same point by point, which is faster for a small grid.
pub fn write_small_inside(out: &mut [u32], at: usize, rows: &[u32], columns: &[u32]) -> usize
    requires rows { GoodRow rows.now × GoodRow columns.now }
    requires room { at + 3 * length (quad_inside (whole_edge rows.now) (whole_edge columns.now)) ≤ length out.old }
    ensures { Wrote out.old at (vertex_words (quad_inside (whole_edge rows.now) (whole_edge columns.now))) out.new result }
{
    let m = rows.len() - 1;
    let n = columns.len() - 1;
    vertices::grid::write_each(out, at, &rows[1..m], &columns[1..n])
}
