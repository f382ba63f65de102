// The search for a directed side, which starts near a triangle.
ghost use Rattle.std.specs.Prelude.{◌≡◌, ◌/◌, ◌≤◌, length};
ghost use Rattle.mesh_geometry.specs.Words.{read_triangles};
ghost use Rattle.check_searches.specs.Triangles.{some_side};
ghost use Rattle.check_side_searches.specs.Skips.{Sided};

use crate::pair::next_touching;
use check_searches::triangle::has_side_at;

// Whether one of the triangles from number `from` up to, not including, `to` has the directed side x→y.
fn has_side_in(indices: &[u16], from: usize, to: usize, x: u16, y: u16) -> bool
    requires order { from ≤ to }
    requires within { to ≤ length indices.now / 3 }
    ensures { Sided (read_triangles indices.now) from to x y result }
{
    // Kept: the loop goes on from each triangle that has the vertex to the next that does, which no range gives.
    let mut i = next_touching(indices, from, to, x, x);
    while i < to {
        if has_side_at(indices, i, x, y) {
            return true;
        }
        i = next_touching(indices, i + 1, to, x, x);
    }
    false
}

// Whether a triangle has the directed side x→y. The triangles next to number `near` are tested first, then eight times as many, and so on.
pub fn has_side_near(indices: &[u16], near: usize, x: u16, y: u16) -> bool
    requires { near ≤ length indices.now / 3 }
    ensures { result ≡ some_side (read_triangles indices.now) x y }
{
    let count = indices.len() / 3;
    let mut reach = 2;
    // Kept: the reach grows by a factor, which no range gives.
    while reach < count / 8 {
        let from = near.saturating_sub(reach);
        let to = near + reach.min(count - near);
        if has_side_in(indices, from, to, x, y) {
            return true;
        }
        reach *= 8;
    }
    has_side_in(indices, 0, count, x, y)
}
