// The segments of a patch's outer edges.
ghost use Rattle.std.specs.Prelude.{◌≡◌, length};
ghost use Rattle.level.specs.Top.{Top};
ghost use Rattle.level.specs.Segments.{segments_of};
ghost use Rattle.patch_outline.specs.Outlines.{edges_of, outline_by, ValidEdges};

use level::{Segments, Spacing};
use patch::kinds::Patch;

// The segments of the outer edges of a patch with an outline.
#[derive(Clone, Copy, Drop)]
pub enum OuterEdges {
    Triangle {
        edge0: Segments,
        edge1: Segments,
        edge2: Segments,
    },
    Quad {
        edge0: Segments,
        edge1: Segments,
        edge2: Segments,
        edge3: Segments,
    },
}

// Returns the outer edges of a patch, unless it has no outline, as isolines.
pub fn edges_of(patch: Patch, spacing: Spacing, top: u32) -> Option<OuterEdges>
    requires { Top top }
    ensures { result ≡ edges_of spacing top patch }
{
    match patch {
        Patch::Triangles {
            outer0,
            outer1,
            outer2,
            ..
        } => Some(OuterEdges::Triangle {
            edge0: edge_of(outer0, spacing, top),
            edge1: edge_of(outer1, spacing, top),
            edge2: edge_of(outer2, spacing, top),
        }),
        Patch::Quads {
            outer0,
            outer1,
            outer2,
            outer3,
            ..
        } => Some(OuterEdges::Quad {
            edge0: edge_of(outer0, spacing, top),
            edge1: edge_of(outer1, spacing, top),
            edge2: edge_of(outer2, spacing, top),
            edge3: edge_of(outer3, spacing, top),
        }),
        Patch::Isolines { .. } => None,
    }
}

// Returns how many points the outline has: each edge has one per segment, as its end is the start of the next.
pub fn points_around(edges: Option<OuterEdges>) -> u32
    requires { ValidEdges edges }
    ensures { result ≡ length (outline_by edges) }
{
    let Some(edges) = edges else {
        return 0;
    };
    match edges {
        OuterEdges::Triangle {
            edge0,
            edge1,
            edge2,
        } => edge0.count + edge1.count + edge2.count,
        OuterEdges::Quad {
            edge0,
            edge1,
            edge2,
            edge3,
        } => edge0.count + edge1.count + edge2.count + edge3.count,
    }
}

// Returns the segments of an outer level.
fn edge_of(level: f32, spacing: Spacing, top: u32) -> Segments
    requires { Top top }
    ensures { result ≡ segments_of spacing top level }
{
    let clamped = level::segments_of(level, spacing, top);
    clamped.segments
}
