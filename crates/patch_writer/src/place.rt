// Writes the points of a cut patch to the front of a list.
ghost use Rattle.std.specs.Prelude.{◌*◌, ◌≤◌, length};
ghost use Rattle.buffer.specs.Over.{Wrote};
ghost use Rattle.mesh_geometry.specs.Words.{vertex_words};
ghost use Rattle.patch_mesh.specs.Points.{points};
ghost use Rattle.patch_mesh.specs.Valid.{ValidCut};

use patch::subdivision::Subdivision;

pub fn write_points(out: &mut [u32], cut: Subdivision) -> usize
    requires valid { ValidCut cut }
    requires room { 3 * length (points cut) ≤ length out.old }
    ensures { Wrote out.old 0 (vertex_words (points cut)) out.new result }
{
    match cut {
        Subdivision::Discarded => 0,
        Subdivision::PlainTriangle => triangle_points::triangle::write_plain_triangle(out, 0),
        Subdivision::Triangle {
            edge0,
            edge1,
            edge2,
            inside,
        } => triangle_points::triangle::write_drawn_triangle(out, 0, edge0, edge1, edge2, inside),
        Subdivision::PlainQuad => quad_points::quad::write_plain_quad(out, 0),
        Subdivision::Quad {
            edge0,
            edge1,
            edge2,
            edge3,
            rows,
            columns,
        } => quad_points::quad::write_quad_patch(out, 0, edge0, edge1, edge2, edge3, rows, columns),
        Subdivision::Lines { lines, along } => isoline_points::isoline::write_isolines(
            out, 0, lines, along,
        ),
    }
}
