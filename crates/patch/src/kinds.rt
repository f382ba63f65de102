// The kinds of patches, each with the tessellation levels that count for it.
#[derive(Clone, Copy, Drop)]
pub enum Patch {
    // The outer levels of the edges u = 0, v = 0 and w = 0, and the inner level.
    Triangles {
        outer0: f32,
        outer1: f32,
        outer2: f32,
        inner0: f32,
    },
    // The outer levels of the edges u = 0, v = 0, u = 1 and v = 1; the inner levels of the rows and of the columns.
    Quads {
        outer0: f32,
        outer1: f32,
        outer2: f32,
        outer3: f32,
        inner0: f32,
        inner1: f32,
    },
    // The number of isolines, and the segments along each.
    Isolines {
        outer0: f32,
        outer1: f32,
    },
}
