// From the levels of a patch to the segments of its outer edges and inner levels.
ghost use Rattle.std.specs.Prelude.{◌≡◌, [], ◌∷◌};
ghost use Rattle.level.specs.Discard.{discarded};
ghost use Rattle.level.specs.Top.{Top};
ghost use Rattle.patch.specs.Every.{some};
ghost use Rattle.patch.specs.Counted.{Counted};
ghost use Rattle.patch.specs.Subdivide.{is_discarded, subdivision};

use crate::kinds::Patch;
use level::{Range, Segments, Spacing};

// What a patch is cut into.
// Kept: `Discarded` is a case here and no `None` around it, since the definition `subdivision` and the theorems on it name it so.
#[derive(Clone, Copy, Drop)]
pub enum Subdivision {
    Discarded,
    PlainTriangle,
    Triangle {
        edge0: Segments,
        edge1: Segments,
        edge2: Segments,
        inside: Segments,
    },
    PlainQuad,
    Quad {
        edge0: Segments,
        edge1: Segments,
        edge2: Segments,
        edge3: Segments,
        rows: Segments,
        columns: Segments,
    },
    Lines {
        lines: Segments,
        along: Segments,
    },
}

pub fn is_discarded(cut: Subdivision) -> bool
    ensures { result ≡ is_discarded cut }
{
    matches!(cut, Subdivision::Discarded)
}

// Returns the segments of each edge; levels are clamped to `top`, or one less for odd spacing.
pub fn subdivide(patch: Patch, spacing: Spacing, top: u32) -> Subdivision
    requires { Top top }
    ensures { result ≡ subdivision spacing top patch }
{
    match patch {
        Patch::Triangles {
            outer0,
            outer1,
            outer2,
            inner0,
        } => triangle(spacing, top, outer0, outer1, outer2, inner0),
        Patch::Quads {
            outer0,
            outer1,
            outer2,
            outer3,
            inner0,
            inner1,
        } => quad(spacing, top, outer0, outer1, outer2, outer3, inner0, inner1),
        Patch::Isolines { outer0, outer1 } => isolines(spacing, top, outer0, outer1),
    }
}

// Whether one of the outer levels discards the patch.
fn discards_any(outer: &[f32]) -> bool
    ensures { result ≡ some discarded outer.now }
{
    for k in 0..outer.len() {
        if level::discards(outer[k]) {
            return true;
        }
    }
    false
}

// Returns the segments of a level.
fn segments_in(level: f32, range: Range) -> Segments
    ensures { Counted range.spacing range.top level result }
{
    range.segments_for(level).segments
}

// The same, given that the level `other` has the segments `own`: equal levels, which are common, are not computed twice.
fn segments_beside(level: f32, other: f32, own: Segments, range: Range) -> Segments
    requires { Counted range.spacing range.top other own }
    ensures { Counted range.spacing range.top level result }
{
    if level > 0.0 && other > 0.0 && level.to_bits() == other.to_bits() {
        return own;
    }
    segments_in(level, range)
}

// Each count is at least 1, so all are 1 exactly if their sum is the number of counts.
fn triangle(
    spacing: Spacing,
    top: u32,
    outer0: f32,
    outer1: f32,
    outer2: f32,
    inner0: f32,
) -> Subdivision
    requires { Top top }
    ensures { result ≡ subdivision spacing top (Patch.Triangles outer0 outer1 outer2 inner0) }
{
    if discards_any(&[outer0, outer1, outer2]) {
        return Subdivision::Discarded;
    }
    let range = level::range_of(spacing, top);
    let edge0 = segments_in(outer0, range);
    let edge1 = segments_beside(outer1, outer0, edge0, range);
    let edge2 = segments_beside(outer2, outer0, edge0, range);
    let inner = segments_beside(inner0, outer0, edge0, range);
    if edge0.count + edge1.count + edge2.count + inner.count == 4 {
        return Subdivision::PlainTriangle;
    }
    let inside = level::as_inner(inner, spacing);
    Subdivision::Triangle {
        edge0,
        edge1,
        edge2,
        inside,
    }
}

fn quad(
    spacing: Spacing,
    top: u32,
    outer0: f32,
    outer1: f32,
    outer2: f32,
    outer3: f32,
    inner0: f32,
    inner1: f32,
) -> Subdivision
    requires { Top top }
    ensures { result ≡ subdivision spacing top (Patch.Quads outer0 outer1 outer2 outer3 inner0 inner1) }
{
    if discards_any(&[outer0, outer1, outer2, outer3]) {
        return Subdivision::Discarded;
    }
    let range = level::range_of(spacing, top);
    let edge0 = segments_in(outer0, range);
    let edge1 = segments_beside(outer1, outer0, edge0, range);
    let edge2 = segments_beside(outer2, outer0, edge0, range);
    let edge3 = segments_beside(outer3, outer0, edge0, range);
    let inner_rows = segments_beside(inner0, outer0, edge0, range);
    let inner_columns = segments_beside(inner1, outer0, edge0, range);
    let outline = edge0.count + edge1.count + edge2.count + edge3.count;
    if outline + inner_rows.count + inner_columns.count == 6 {
        return Subdivision::PlainQuad;
    }
    let rows = level::as_inner(inner_rows, spacing);
    let columns = level::as_inner(inner_columns, spacing);
    Subdivision::Quad {
        edge0,
        edge1,
        edge2,
        edge3,
        rows,
        columns,
    }
}

fn isolines(spacing: Spacing, top: u32, outer0: f32, outer1: f32) -> Subdivision
    requires { Top top }
    ensures { result ≡ subdivision spacing top (Patch.Isolines outer0 outer1) }
{
    if discards_any(&[outer0, outer1]) {
        return Subdivision::Discarded;
    }
    let whole = level::range_of(Spacing::Equal, top);
    let range = level::range_of(spacing, top);
    let lines = segments_in(outer0, whole);
    let along = segments_in(outer1, range);
    Subdivision::Lines { lines, along }
}
