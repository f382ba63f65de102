// The points of isolines, isoline by isoline.
ghost use Rattle.std.specs.Prelude.{◌+◌, ◌*◌, ◌≤◌, ◌≡◌, [], ◌∷◌, length};
ghost use Rattle.buffer.specs.Over.{Wrote};
ghost use Rattle.edge.specs.Rows.{edge_row};
ghost use Rattle.edge_table.specs.Stored.{rows_to};
ghost use Rattle.level.specs.Segments.{Valid};
ghost use Rattle.mesh_geometry.specs.Segmented.{run, isoline_points};
ghost use Rattle.mesh_geometry.specs.Words.{vertex_words};
ghost use Rattle.vertices.specs.Rows.{whole_edge, GoodRow, AllValid};
ghost use Rattle.isoline_points.specs.Equal.{MostEqual, StoredIfEqual};

use edge_table::row_of;
use level::Segments;

// Writes isolines from two rows of places, each with the place of the edge's end.
fn write_rows(out: &mut [u32], at: usize, lines: &[u32], along: &[u32]) -> usize
    requires fact_1 { GoodRow lines.now × GoodRow along.now }
    requires fact_2 { at + 3 * length (isoline_points (whole_edge lines.now) (whole_edge along.now)) ≤ length out.old }
    ensures { Wrote out.old at (vertex_words (isoline_points (whole_edge lines.now) (whole_edge along.now))) out.new result }
{
    let n = lines.len() - 1;
    vertices::grid::write_grid(out, at, &lines[0..n], along)
}

// Writes isolines at the places of `row`, which is the row of `lines`. The row along an isoline comes from the table if its spacing is
// equal, else it is computed by division.
fn write_along(
    out: &mut [u32],
    at: usize,
    table: &[u32],
    row: &[u32],
    lines: Segments,
    along: Segments,
) -> usize
    requires fact_1 { AllValid (lines ∷ along ∷ []) }
    requires fact_2 { row.now ≡ edge_row lines.count lines.scaled }
    requires fact_3 { StoredIfEqual table.now along }
    requires fact_4 { at + 3 * length (isoline_points (run lines) (run along)) ≤ length out.old }
    ensures { Wrote out.old at (vertex_words (isoline_points (run lines) (run along))) out.new result }
{
    if along.scaled == 65536 * along.count {
        let stored = row_of(table, along);
        return write_rows(out, at, row, stored);
    }
    let mut words = [0u32; 65];
    edge::fill_row(&mut words, 0, along);
    let divided = edge::row_from(&words, 0, along);
    write_rows(out, at, row, divided)
}

// The same, with the row of `lines` from the table or by division too.
fn write_by_spacing(
    out: &mut [u32],
    at: usize,
    table: &[u32],
    lines: Segments,
    along: Segments,
) -> usize
    requires fact_1 { AllValid (lines ∷ along ∷ []) }
    requires fact_2 { StoredIfEqual table.now lines × StoredIfEqual table.now along }
    requires fact_3 { at + 3 * length (isoline_points (run lines) (run along)) ≤ length out.old }
    ensures { Wrote out.old at (vertex_words (isoline_points (run lines) (run along))) out.new result }
{
    if lines.scaled == 65536 * lines.count {
        let stored = row_of(table, lines);
        return write_along(out, at, table, stored, lines, along);
    }
    let mut words = [0u32; 65];
    edge::fill_row(&mut words, 0, lines);
    let divided = edge::row_from(&words, 0, lines);
    write_along(out, at, table, divided, lines, along)
}

// Returns the most segments of an edge of equal spacing so far: the greater of `most` and the segments of s, if its spacing is equal.
fn most_equal(most: u32, s: Segments) -> u32
    requires { s.count ≤ 64 }
    ensures { MostEqual most s result }
{
    if s.scaled != 65536 * s.count {
        return most;
    }
    most.max(s.count)
}

// Writes isolines, with the rows of equal spacing from a table of 8 rows.
// Kept: a function for each size of table, and not one with the size as a const parameter. Where one function lays out all four tables, LLVM
// copies each once more, and by `edge_table::rows_to` a table would be laid out here again, not by the functions that all callers share.
fn write_with_8_rows(out: &mut [u32], at: usize, lines: Segments, along: Segments) -> usize
    requires valid { AllValid (lines ∷ along ∷ []) }
    requires stored { StoredIfEqual (rows_to 8) lines × StoredIfEqual (rows_to 8) along }
    requires room { at + 3 * length (isoline_points (run lines) (run along)) ≤ length out.old }
    ensures { Wrote out.old at (vertex_words (isoline_points (run lines) (run along))) out.new result }
{
    let table = edge_table::rows_to_8();
    write_by_spacing(out, at, &table, lines, along)
}

// The same with a table of 16 rows.
fn write_with_16_rows(out: &mut [u32], at: usize, lines: Segments, along: Segments) -> usize
    requires valid { AllValid (lines ∷ along ∷ []) }
    requires stored { StoredIfEqual (rows_to 16) lines × StoredIfEqual (rows_to 16) along }
    requires room { at + 3 * length (isoline_points (run lines) (run along)) ≤ length out.old }
    ensures { Wrote out.old at (vertex_words (isoline_points (run lines) (run along))) out.new result }
{
    let table = edge_table::rows_to_16();
    write_by_spacing(out, at, &table, lines, along)
}

// The same with a table of 32 rows.
fn write_with_32_rows(out: &mut [u32], at: usize, lines: Segments, along: Segments) -> usize
    requires valid { AllValid (lines ∷ along ∷ []) }
    requires stored { StoredIfEqual (rows_to 32) lines × StoredIfEqual (rows_to 32) along }
    requires room { at + 3 * length (isoline_points (run lines) (run along)) ≤ length out.old }
    ensures { Wrote out.old at (vertex_words (isoline_points (run lines) (run along))) out.new result }
{
    let table = edge_table::rows_to_32();
    write_by_spacing(out, at, &table, lines, along)
}

// The same with a table of 64 rows.
fn write_with_64_rows(out: &mut [u32], at: usize, lines: Segments, along: Segments) -> usize
    requires valid { AllValid (lines ∷ along ∷ []) }
    requires stored { StoredIfEqual (rows_to 64) lines × StoredIfEqual (rows_to 64) along }
    requires room { at + 3 * length (isoline_points (run lines) (run along)) ≤ length out.old }
    ensures { Wrote out.old at (vertex_words (isoline_points (run lines) (run along))) out.new result }
{
    let table = edge_table::rows_to_64();
    write_by_spacing(out, at, &table, lines, along)
}

// Writes an isoline for each place of `lines` but the last, with a point for each place of `along`. Rows of equal spacing come from the
// table, of which no more rows are laid out than these two need.
pub fn write_isolines(out: &mut [u32], at: usize, lines: Segments, along: Segments) -> usize
    requires fact_1 { Valid lines.count lines.scaled × Valid along.count along.scaled }
    requires fact_2 { at + 3 * length (isoline_points (run lines) (run along)) ≤ length out.old }
    ensures { Wrote out.old at (vertex_words (isoline_points (run lines) (run along))) out.new result }
{
    let most = most_equal(0, lines);
    let most = most_equal(most, along);
    if most <= 8 {
        return write_with_8_rows(out, at, lines, along);
    }
    if most <= 16 {
        return write_with_16_rows(out, at, lines, along);
    }
    if most <= 32 {
        return write_with_32_rows(out, at, lines, along);
    }
    write_with_64_rows(out, at, lines, along)
}
