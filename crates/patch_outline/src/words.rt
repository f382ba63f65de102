// The outline of a patch as words, three per point, in a list that the caller lends.
ghost use Rattle.std.specs.Prelude.{[], ◌∷◌, ◌+◌, ◌*◌, ◌≤◌, length};
ghost use Rattle.level.specs.Segments.{Valid};
ghost use Rattle.mesh_geometry.specs.Edge.{around, ring};
ghost use Rattle.mesh_geometry.specs.Segmented.{run};
ghost use Rattle.mesh_geometry.specs.TrianglePoints.{triangle_place};
ghost use Rattle.mesh_geometry.specs.QuadPoints.{quad_place};
ghost use Rattle.patch_outline.specs.Outlines.{outline_by, ValidEdges, OutlineOf};

use crate::edges::OuterEdges;
use level::Segments;

// Writes the outline of a triangle patch: the first points of a patch whose inner level gives two segments.
fn write_triangle(words: &mut [u32], e0: Segments, e1: Segments, e2: Segments) -> usize
    requires valid { Valid e0.count e0.scaled × Valid e1.count e1.scaled × Valid e2.count e2.scaled }
    requires room { 3 * around (run e0 ∷ run e1 ∷ run e2 ∷ []) + 3 ≤ length words.old }
    ensures { OutlineOf (ring triangle_place 0 (run e0 ∷ run e1 ∷ run e2 ∷ []) 0) words.new result }
{
    let inside = Segments {
        count: 2,
        scaled: 131072,
    };
    triangle_points::triangle::write_triangle_patch(words, 0, e0, e1, e2, inside) - 3
}

// Writes the outline of a quad patch: all points of a patch with no inner points.
fn write_quad(words: &mut [u32], e0: Segments, e1: Segments, e2: Segments, e3: Segments) -> usize
    requires valid { Valid e0.count e0.scaled × Valid e1.count e1.scaled × Valid e2.count e2.scaled × Valid e3.count e3.scaled }
    requires room { 3 * around (run e0 ∷ run e1 ∷ run e2 ∷ run e3 ∷ []) ≤ length words.old }
    ensures { OutlineOf (ring quad_place 0 (run e0 ∷ run e1 ∷ run e2 ∷ run e3 ∷ []) 0) words.new result }
{
    let one = Segments {
        count: 1,
        scaled: 65536,
    };
    quad_points::quad::write_quad_patch(words, 0, e0, e1, e2, e3, one, one)
}

// Writes the outline of these edges; returns how many words it has. The list needs room for one more point, which the outline
// of a triangle writes.
pub fn write_outline(words: &mut [u32], edges: Option<OuterEdges>) -> usize
    requires valid { ValidEdges edges }
    requires room { 3 * length (outline_by edges) + 3 ≤ length words.old }
    ensures { OutlineOf (outline_by edges) words.new result }
{
    let Some(edges) = edges else {
        return 0;
    };
    match edges {
        OuterEdges::Triangle {
            edge0,
            edge1,
            edge2,
        } => write_triangle(words, edge0, edge1, edge2),
        OuterEdges::Quad {
            edge0,
            edge1,
            edge2,
            edge3,
        } => write_quad(words, edge0, edge1, edge2, edge3),
    }
}
