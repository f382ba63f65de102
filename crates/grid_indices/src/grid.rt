// A grid of vertices, and the lines along its border.
ghost use Rattle.std.specs.Prelude.{◌≡◌, ◌+◌, ◌-◌, ◌*◌, ◌≤◌, ◌<◌};
ghost use Rattle.strip.specs.Lines.{Follows};
ghost use Rattle.mesh_topology.specs.Quad.{grid_at};

use strip::line::Line;

// Rows 0 to a and columns 0 to b of vertices; a row has `width` vertices, and the first vertex is `start`. The grid has at most 64
// rows and columns of cells, and its vertex numbers are below 65535.
#[derive(Clone, Copy, Drop)]
pub struct Grid {
    pub start: u32,
    pub width: u32,
    pub a: u32,
    pub b: u32,
    pub ghost wide: { width ≡ b + 1 },
    pub ghost rows: { a ≤ 64 },
    pub ghost columns: { b ≤ 64 },
    pub ghost small: { start + a * width + b < 65535 },
}

impl Grid {
    // The first column, downwards.
    pub fn left(self) -> Line
        ensures { Follows result (λ k. grid_at self.start self.width (self.a - k) 0) self.a }
    {
        let first = self.start + self.a * self.width;
        Line {
            first: first as u16,
            step: (65536 - self.width) as u16,
            count: self.a,
            last: self.start as u16,
        }
    }

    // The first row.
    pub fn bottom(self) -> Line
        ensures { Follows result (λ k. grid_at self.start self.width 0 k) self.b }
    {
        Line {
            first: self.start as u16,
            step: 1,
            count: self.b,
            last: (self.start + self.b) as u16,
        }
    }

    // The last column, upwards.
    pub fn right(self) -> Line
        ensures { Follows result (λ k. grid_at self.start self.width k self.b) self.a }
    {
        let first = self.start + self.b;
        Line {
            first: first as u16,
            step: self.width as u16,
            count: self.a,
            last: (first + self.a * self.width) as u16,
        }
    }

    // The last row, backwards.
    pub fn top(self) -> Line
        ensures { Follows result (λ k. grid_at self.start self.width self.a (self.b - k)) self.b }
    {
        let last = self.start + self.a * self.width;
        Line {
            first: (last + self.b) as u16,
            step: 65535,
            count: self.b,
            last: last as u16,
        }
    }
}
