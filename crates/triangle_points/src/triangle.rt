// The points of a triangle patch from the segments of its edges; the rows of places come from the table or are computed.
ghost use Rattle.std.specs.Prelude.{◌+◌, ◌*◌, ◌≤◌, [], ◌∷◌, length};
ghost use Rattle.buffer.specs.Over.{Wrote};
ghost use Rattle.mesh_geometry.specs.TrianglePoints.{triangle_corners};
ghost use Rattle.mesh_geometry.specs.Segmented.{run};
ghost use Rattle.mesh_geometry.specs.Words.{vertex_words};
ghost use Rattle.vertices.specs.Rows.{AllValid, AllStored, Widths};
ghost use Rattle.triangle_point_rows.specs.Parts.{triangle_outline};
ghost use Rattle.triangle_points.specs.Patches.{ValidOutline, ValidInner, patch_points};

use edge_table::{row_of, widest};
use level::Segments;
use triangle_point_rows::{write_inside, write_outline};

// Kept: a type that holds the segments of all edges was tried; a draw at level 64 took 37 instructions more, and is not to take more than before.
// Writes an outline whose rows are in the table.
fn write_stored_outline(
    out: &mut [u32],
    at: usize,
    table: &[u32],
    e0: Segments,
    e1: Segments,
    e2: Segments,
) -> usize
    requires fact_1 { AllValid (e0 ∷ e1 ∷ e2 ∷ []) }
    requires fact_2 { AllStored table.now (e0 ∷ e1 ∷ e2 ∷ []) }
    requires fact_3 { at + 3 * length (triangle_outline (run e0) (run e1) (run e2)) ≤ length out.old }
    ensures { Wrote out.old at (vertex_words (triangle_outline (run e0) (run e1) (run e2))) out.new result }
{
    let r0 = row_of(table, e0);
    let r1 = row_of(table, e1);
    let r2 = row_of(table, e2);
    write_outline(out, at, r0, r1, r2)
}

// Writes a patch whose rows are in the table.
fn write_stored(
    out: &mut [u32],
    at: usize,
    table: &[u32],
    e0: Segments,
    e1: Segments,
    e2: Segments,
    inside: Segments,
) -> usize
    requires fact_1 { AllValid (e0 ∷ e1 ∷ e2 ∷ inside ∷ []) × (2 ≤ inside.count) }
    requires fact_2 { AllStored table.now (e0 ∷ e1 ∷ e2 ∷ inside ∷ []) }
    requires fact_3 { at + 3 * length (patch_points e0 e1 e2 inside) ≤ length out.old }
    ensures { Wrote out.old at (vertex_words (patch_points e0 e1 e2 inside)) out.new result }
{
    let r0 = row_of(table, e0);
    let r1 = row_of(table, e1);
    let r2 = row_of(table, e2);
    let row = row_of(table, inside);
    let w = write_outline(out, at, r0, r1, r2);
    write_inside(out, w, row)
}

// Writes a patch whose rows are computed by division, one every 65 words.
fn write_divided(
    out: &mut [u32],
    at: usize,
    e0: Segments,
    e1: Segments,
    e2: Segments,
    inside: Segments,
) -> usize
    requires fact_1 { AllValid (e0 ∷ e1 ∷ e2 ∷ inside ∷ []) × (2 ≤ inside.count) }
    requires fact_2 { at + 3 * length (patch_points e0 e1 e2 inside) ≤ length out.old }
    ensures { Wrote out.old at (vertex_words (patch_points e0 e1 e2 inside)) out.new result }
{
    let mut words = [0u32; 260];
    edge::fill_row(&mut words, 195, inside);
    edge::fill_row(&mut words, 130, e2);
    edge::fill_row(&mut words, 65, e1);
    edge::fill_row(&mut words, 0, e0);
    let all = &words[..];
    let r0 = edge::row_from(all, 0, e0);
    let r1 = edge::row_from(all, 65, e1);
    let r2 = edge::row_from(all, 130, e2);
    let r3 = edge::row_from(all, 195, inside);
    let w = write_outline(out, at, r0, r1, r2);
    write_inside(out, w, r3)
}

// Returns the greatest number of segments of an edge, or 65 if an edge is not equally spaced.
fn width_of(e0: Segments, e1: Segments, e2: Segments, inside: Segments) -> u32
    requires { AllValid (e0 ∷ e1 ∷ e2 ∷ inside ∷ []) }
    ensures { Widths 0 (e0 ∷ e1 ∷ e2 ∷ inside ∷ []) result }
{
    let most = widest(0, e0);
    let most = widest(most, e1);
    let most = widest(most, e2);
    widest(most, inside)
}

// Writes a patch, given `most` of `width_of`. For equal spacing the places come from the table, of which no more rows are copied than the
// edges need.
fn write_by_width(
    out: &mut [u32],
    at: usize,
    most: u32,
    e0: Segments,
    e1: Segments,
    e2: Segments,
    inside: Segments,
) -> usize
    requires fact_1 { AllValid (e0 ∷ e1 ∷ e2 ∷ inside ∷ []) × (2 ≤ inside.count) }
    requires fact_2 { Widths 0 (e0 ∷ e1 ∷ e2 ∷ inside ∷ []) most }
    requires fact_3 { at + 3 * length (patch_points e0 e1 e2 inside) ≤ length out.old }
    ensures { Wrote out.old at (vertex_words (patch_points e0 e1 e2 inside)) out.new result }
{
    if most <= 8 {
        let table = edge_table::rows_to_8();
        return write_stored(out, at, &table, e0, e1, e2, inside);
    }
    if most <= 16 {
        let table = edge_table::rows_to_16();
        return write_stored(out, at, &table, e0, e1, e2, inside);
    }
    if most <= 32 {
        let table = edge_table::rows_to_32();
        return write_stored(out, at, &table, e0, e1, e2, inside);
    }
    if most <= 64 {
        let table = edge_table::rows_to_64();
        return write_stored(out, at, &table, e0, e1, e2, inside);
    }
    write_divided(out, at, e0, e1, e2, inside)
}

// Writes a patch: the outline, then the rings inside.
pub fn write_triangle_patch(
    out: &mut [u32],
    at: usize,
    e0: Segments,
    e1: Segments,
    e2: Segments,
    inside: Segments,
) -> usize
    requires fact_1 { ValidOutline e0 e1 e2 }
    requires fact_2 { ValidInner inside }
    requires fact_3 { at + 3 * length (patch_points e0 e1 e2 inside) ≤ length out.old }
    ensures { Wrote out.old at (vertex_words (patch_points e0 e1 e2 inside)) out.new result }
{
    let most = width_of(e0, e1, e2, inside);
    write_by_width(out, at, most, e0, e1, e2, inside)
}

// The same for drawing, with the inside of a small patch written point by point, which is faster.
pub fn write_drawn_triangle(
    out: &mut [u32],
    at: usize,
    e0: Segments,
    e1: Segments,
    e2: Segments,
    inside: Segments,
) -> usize
    requires fact_1 { ValidOutline e0 e1 e2 }
    requires fact_2 { ValidInner inside }
    requires fact_3 { at + 3 * length (patch_points e0 e1 e2 inside) ≤ length out.old }
    ensures { Wrote out.old at (vertex_words (patch_points e0 e1 e2 inside)) out.new result }
{
    let most = width_of(e0, e1, e2, inside);
    if most < 9 {
        let table = edge_table::rows_to_8();
        let w = write_stored_outline(out, at, &table, e0, e1, e2);
        let row = row_of(&table, inside);
        return triangle_point_rows::write_small_inside(out, w, row);
    }
    write_by_width(out, at, most, e0, e1, e2, inside)
}

// Writes the plain patch: its three corners.
pub fn write_plain_triangle(out: &mut [u32], at: usize) -> usize
    requires { at + 9 ≤ length out.old }
    ensures { Wrote out.old at (vertex_words triangle_corners) out.new result }
{
    let w = buffer::put3(out, at, 0, 196608, 0);
    let w = buffer::put3(out, w, 0, 0, 196608);
    buffer::put3(out, w, 196608, 0, 0)
}
