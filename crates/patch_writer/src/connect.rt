// Writes the indices of a cut patch to the front of a list.
ghost use Rattle.std.specs.Prelude.{◌≤◌, length};
ghost use Rattle.buffer.specs.Over.{Wrote};
ghost use Rattle.patch_mesh.specs.Points.{points};
ghost use Rattle.patch_mesh.specs.Primitives.{primitives, in_mode};
ghost use Rattle.patch_mesh.specs.Valid.{ValidCut};
ghost use Rattle.patch.specs.declared.subdivision.Subdivision.TheVariants.{PlainTriangle, PlainQuad};

use indices::quad::Outline;
use patch::subdivision::Subdivision;
use strip::triangle::Triangle;

// Writes the one triangle of the plain triangle patch.
fn write_plain_triangle(out: &mut [u16], positive: bool) -> usize
    requires { 3 ≤ length out.old }
    ensures { Wrote out.old 0 (primitives positive PlainTriangle) out.new result }
{
    strip::triangle::put_triangle(out, 0, Triangle { a: 0, b: 1, c: 2 }, positive)
}

// Writes the two triangles of the plain quad patch.
fn write_plain_quad(out: &mut [u16], positive: bool) -> usize
    requires { 6 ≤ length out.old }
    ensures { Wrote out.old 0 (primitives positive PlainQuad) out.new result }
{
    let w = strip::triangle::put_triangle(out, 0, Triangle { a: 0, b: 1, c: 2 }, positive);
    strip::triangle::put_triangle(out, w, Triangle { a: 0, b: 2, c: 3 }, positive)
}

// Writes the triangles, in the orientation asked for, or the lines.
fn write_primitives(out: &mut [u16], cut: Subdivision, positive: bool) -> usize
    requires valid { ValidCut cut }
    requires room { length (primitives positive cut) ≤ length out.old }
    ensures { Wrote out.old 0 (primitives positive cut) out.new result }
{
    match cut {
        Subdivision::Discarded => 0,
        Subdivision::PlainTriangle => write_plain_triangle(out, positive),
        Subdivision::Triangle {
            edge0,
            edge1,
            edge2,
            inside,
        } => ring_indices::nest::write_nest(
            out,
            0,
            edge0.count,
            edge1.count,
            edge2.count,
            inside.count,
            positive,
        ),
        Subdivision::PlainQuad => write_plain_quad(out, positive),
        Subdivision::Quad {
            edge0,
            edge1,
            edge2,
            edge3,
            rows,
            columns,
        } => {
            let outline = Outline {
                c0: edge0.count,
                c1: edge1.count,
                c2: edge2.count,
                c3: edge3.count,
            };
            outline.write_quad(out, 0, rows.count, columns.count, positive)
        }
        Subdivision::Lines { lines, along } => indices::isoline::write_isolines(
            out,
            0,
            lines.count,
            along.count,
        ),
    }
}

// Writes dots in point mode, else triangles or lines.
pub fn write_indices(out: &mut [u16], cut: Subdivision, point_mode: bool, positive: bool) -> usize
    requires valid { ValidCut cut }
    requires few { length (points cut) ≤ 65535 }
    requires room { length (in_mode point_mode positive cut) ≤ length out.old }
    ensures { Wrote out.old 0 (in_mode point_mode positive cut) out.new result }
{
    if point_mode {
        let p = crate::count::point_count(cut);
        return indices::dot::write_dots(out, 0, p);
    }
    write_primitives(out, cut, positive)
}
