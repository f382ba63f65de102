// The points of a quad patch from the segments of its edges; the rows of places come from the table or are computed.
ghost use Rattle.std.specs.Prelude.{◌+◌, ◌*◌, ◌≤◌, [], ◌∷◌, length};
ghost use Rattle.buffer.specs.Over.{Wrote};
ghost use Rattle.level.specs.Segments.{Valid};
ghost use Rattle.mesh_geometry.specs.QuadPoints.{quad_patch, quad_corners};
ghost use Rattle.mesh_geometry.specs.Segmented.{run};
ghost use Rattle.mesh_geometry.specs.Words.{vertex_words};
ghost use Rattle.vertices.specs.Rows.{AllValid};

use edge_table::{row_of, widest};
use level::Segments;
use quad_point_rows::{write_inside, write_outline};

// The segments of a patch: those of its outer edges, of its rows and of its columns.
#[derive(Clone, Copy, Drop)]
struct QuadSegments {
    e0: Segments,
    e1: Segments,
    e2: Segments,
    e3: Segments,
    rows: Segments,
    columns: Segments,
    ghost valid: { AllValid (e0 ∷ e1 ∷ e2 ∷ e3 ∷ rows ∷ columns ∷ []) },
}

impl QuadSegments {
    ghost use Rattle.quad_points.specs.Patches.{all_segments, quad_patch_points};
    ghost use Rattle.vertices.specs.Rows.{AllStored, Widths};

    // Writes the patch, whose rows are in the table.
    fn write_stored(self, out: &mut [u32], at: usize, table: &[u32]) -> usize
        requires stored { AllStored table.now (all_segments self) }
        requires room { at + 3 * length (quad_patch_points self) ≤ length out.old }
        ensures { Wrote out.old at (vertex_words (quad_patch_points self)) out.new result }
    {
        let r0 = row_of(table, self.e0);
        let r1 = row_of(table, self.e1);
        let r2 = row_of(table, self.e2);
        let r3 = row_of(table, self.e3);
        let r4 = row_of(table, self.rows);
        let r5 = row_of(table, self.columns);
        let w = write_outline(out, at, r0, r1, r2, r3);
        write_inside(out, w, r4, r5)
    }

    // Writes the patch, whose rows are computed by division, one every 65 words.
    fn write_divided(self, out: &mut [u32], at: usize) -> usize
        requires { at + 3 * length (quad_patch_points self) ≤ length out.old }
        ensures { Wrote out.old at (vertex_words (quad_patch_points self)) out.new result }
    {
        let mut words = [0u32; 390];
        edge::fill_row(&mut words, 325, self.columns);
        edge::fill_row(&mut words, 260, self.rows);
        edge::fill_row(&mut words, 195, self.e3);
        edge::fill_row(&mut words, 130, self.e2);
        edge::fill_row(&mut words, 65, self.e1);
        edge::fill_row(&mut words, 0, self.e0);
        let all = &words[..];
        let r0 = edge::row_from(all, 0, self.e0);
        let r1 = edge::row_from(all, 65, self.e1);
        let r2 = edge::row_from(all, 130, self.e2);
        let r3 = edge::row_from(all, 195, self.e3);
        let r4 = edge::row_from(all, 260, self.rows);
        let r5 = edge::row_from(all, 325, self.columns);
        let w = write_outline(out, at, r0, r1, r2, r3);
        write_inside(out, w, r4, r5)
    }

    // Returns the greatest number of segments of an edge, or 65 if an edge is not equally spaced.
    fn width(self) -> u32
        ensures { Widths 0 (all_segments self) result }
    {
        let most = widest(0, self.e0);
        let most = widest(most, self.e1);
        let most = widest(most, self.e2);
        let most = widest(most, self.e3);
        let most = widest(most, self.rows);
        widest(most, self.columns)
    }

    // Writes the patch, given `most` of `width`. For equal spacing the places come from the table, of which no more rows are copied than
    // the edges need.
    fn write_by_width(self, out: &mut [u32], at: usize, most: u32) -> usize
        requires widths { Widths 0 (all_segments self) most }
        requires room { at + 3 * length (quad_patch_points self) ≤ length out.old }
        ensures { Wrote out.old at (vertex_words (quad_patch_points self)) out.new result }
    {
        if most <= 16 {
            let table = edge_table::rows_to_16();
            return self.write_stored(out, at, &table);
        }
        if most <= 32 {
            let table = edge_table::rows_to_32();
            return self.write_stored(out, at, &table);
        }
        if most <= 64 {
            let table = edge_table::rows_to_64();
            return self.write_stored(out, at, &table);
        }
        self.write_divided(out, at)
    }
}

// Writes a patch; the grid has m - 1 rows of n - 1 points, where `rows` has m segments and `columns` n. The inside of a small patch is
// written point by point, which is faster.
pub fn write_quad_patch(
    out: &mut [u32],
    at: usize,
    e0: Segments,
    e1: Segments,
    e2: Segments,
    e3: Segments,
    rows: Segments,
    columns: Segments,
) -> usize
    requires outline_valid { Valid e0.count e0.scaled × Valid e1.count e1.scaled × Valid e2.count e2.scaled × Valid e3.count e3.scaled }
    requires inside_valid { Valid rows.count rows.scaled × Valid columns.count columns.scaled }
    requires room { at + 3 * length (quad_patch (run e0) (run e1) (run e2) (run e3) (run rows) (run columns)) ≤ length out.old }
    ensures { Wrote out.old at (vertex_words (quad_patch (run e0) (run e1) (run e2) (run e3) (run rows) (run columns))) out.new result }
{
    let segments = QuadSegments {
        e0,
        e1,
        e2,
        e3,
        rows,
        columns,
    };
    let most = segments.width();
    if most < 9 {
        let table = edge_table::rows_to_8();
        let r0 = row_of(&table, e0);
        let r1 = row_of(&table, e1);
        let r2 = row_of(&table, e2);
        let r3 = row_of(&table, e3);
        let w = write_outline(out, at, r0, r1, r2, r3);
        let r = row_of(&table, rows);
        let c = row_of(&table, columns);
        return quad_point_rows::write_small_inside(out, w, r, c);
    }
    segments.write_by_width(out, at, most)
}

// Writes the plain patch: its four corners.
pub fn write_plain_quad(out: &mut [u32], at: usize) -> usize
    requires { at + 12 ≤ length out.old }
    ensures { Wrote out.old at (vertex_words quad_corners) out.new result }
{
    let w = buffer::put3(out, at, 0, 65536, 0);
    let w = buffer::put3(out, w, 0, 0, 0);
    let w = buffer::put3(out, w, 65536, 0, 0);
    buffer::put3(out, w, 65536, 65536, 0)
}
