// The search for a directed side that two triangles have.
ghost use Rattle.std.specs.Prelude.{◌≡◌, ◌/◌, ◌≤◌, length};
ghost use Rattle.mesh_geometry.specs.Words.{read_triangles};
ghost use Rattle.check_searches.specs.Triangles.{first_sharing, first_reused};
ghost use Rattle.check_side_searches.specs.Skips.{Skips, NewTo};

use check_searches::triangle::{has_corner, share_side, triangle_at};
use strip::triangle::Triangle;

// Skips triangles that have neither corner x nor y, 32 at a time, from number `from` on.
fn skip_blocks(indices: &[u16], from: usize, to: usize, x: u16, y: u16) -> usize
    requires order { from ≤ to }
    requires within { to ≤ length indices.now / 3 }
    ensures { Skips (read_triangles indices.now) from to x y result }
{
    let mut at = from;
    // Kept: the blocks as a range of numbers would need each block's first triangle computed, and the place after the last block too.
    while at + 32 <= to {
        if check_searches::index::holds(indices, at * 3, (at + 32) * 3, x, y) {
            return at;
        }
        at += 32;
    }
    at
}

// Returns the first triangle from number `from` on that has x or y as a corner, or `to`.
pub(crate) fn next_touching(indices: &[u16], from: usize, to: usize, x: u16, y: u16) -> usize
    requires order { from ≤ to }
    requires within { to ≤ length indices.now / 3 }
    ensures { Skips (read_triangles indices.now) from to x y result }
{
    let start = skip_blocks(indices, from, to, x, y);
    for at in start..to {
        let t = triangle_at(indices, at);
        if has_corner(t, x) | has_corner(t, y) {
            return at;
        }
    }
    to
}

// Returns the first of the triangles before number `end` that has a directed side in common with t, or `end`.
pub fn first_sharing(indices: &[u16], t: Triangle, end: usize) -> usize
    requires { end ≤ length indices.now / 3 }
    ensures { result ≡ first_sharing (read_triangles indices.now) t end }
{
    for i in 0..end {
        if share_side(triangle_at(indices, i), t) {
            return i;
        }
    }
    end
}

// Returns the first triangle that has a directed side in common with an earlier triangle, or the number of triangles; those
// before number `from` are known to have none in common. A side in common contains one of t's first two corners.
pub fn first_reused(indices: &[u16], from: usize) -> usize
    requires within { from ≤ length indices.now / 3 }
    requires known { NewTo (read_triangles indices.now) from }
    ensures { result ≡ first_reused (read_triangles indices.now) }
{
    let count = indices.len() / 3;
    let mut j = from;
    // Kept: nested loops that a label leaves were asked for, with the place where the search ended read after them.
    'search: while j < count {
        let t = triangle_at(indices, j);
        let mut i = next_touching(indices, 0, j, t.a, t.b);
        while i < j {
            if share_side(triangle_at(indices, i), t) {
                break 'search;
            }
            i = next_touching(indices, i + 1, j, t.a, t.b);
        }
        j += 1;
    }
    j
}
