// The search for a triangle along the chains of its sides: among all triangles of a mesh, or among the first of them.
#![tactic(auto)]

ghost use Rattle.std.specs.Prelude.{◌≡◌, true, ◌*◌, ◌/◌, ◌%◌, ◌≤◌, ◌<◌, length};
ghost use Rattle.mesh_geometry.specs.Words.{read_triangles};
ghost use Rattle.check_searches.specs.Triangles.{triangle_at};
ghost use Rattle.check_searches.specs.Indices.{AllNumbered};
ghost use Rattle.half_edge_chains.specs.Sides.{side_start, side_end};
ghost use Rattle.half_edge_chains.specs.Links.{last_from, Linked, Zeros};
ghost use Rattle.triangle_table.specs.Hits.{hits, some_face};

use check_searches::triangle::triangle_at;
use check_side_searches::same::same_triangle;
use half_edge_chains::chain::{add_side, before_in, end_in};
use half_edge_chains::number::end_at;
use strip::triangle::Triangle;

// Fills the table with all sides, repeated ones included.
pub fn fill(indices: &[u16], heads: &mut [u16], links: &mut [u32])
    requires empty { Zeros heads.old }
    requires numbered { AllNumbered (length heads.old) indices.now }
    requires room { length indices.now ≤ length links.old }
    requires few { length indices.now < 65536 }
    ensures { Linked (read_triangles indices.now) (length indices.now / 3 * 3) heads.new links.new }
{
    let sides = indices.len() / 3 * 3;
    for m in 0..sides {
        add_side(indices, m, heads, links, indices[m], end_at(indices, m));
    }
}

// Whether side m, which starts at t's first corner and has this link, ends at t's second corner, and its triangle is t up to rotation.
fn is_at(indices: &[u16], m: usize, link: u32, t: Triangle) -> bool
    requires in_range { m < length indices.now / 3 * 3 }
    requires ends { link % 65536 ≡ side_end (read_triangles indices.now) m }
    requires starts { side_start (read_triangles indices.now) m ≡ t.a }
    ensures { result ≡ hits (read_triangles indices.now) t m }
{
    end_in(link) == t.b && same_triangle(triangle_at(indices, m / 3), t)
}

// Whether one of the first n triangles is t, up to rotation; `from` is one more than the last of their sides that starts at t's
// first corner, or 0.
fn walk(indices: &[u16], heads: &[u16], links: &[u32], n: usize, from: usize, t: Triangle) -> bool
    requires linked { Linked (read_triangles indices.now) (length indices.now / 3 * 3) heads.now links.now }
    requires in_range { n ≤ length indices.now / 3 }
    requires begins { from ≡ last_from (read_triangles indices.now) (n * 3) t.a }
    ensures { result ≡ some_face (read_triangles indices.now) t n }
{
    let mut k = from;
    // Kept: no `for`: the search follows the links of a chain, and counts nothing.
    while 0 < k {
        let link = links[k - 1];
        if is_at(indices, k - 1, link, t) {
            return true;
        }
        k = before_in(link);
    }
    false
}

// Whether one of the triangles is t, up to rotation.
pub fn has_triangle(indices: &[u16], heads: &[u16], links: &[u32], t: Triangle) -> bool
    requires linked { Linked (read_triangles indices.now) (length indices.now / 3 * 3) heads.now links.now }
    requires has_head { t.a < length heads.now }
    ensures { result ≡ some_face (read_triangles indices.now) t (length indices.now / 3) }
{
    let x = t.a;
    walk(
        indices,
        heads,
        links,
        indices.len() / 3,
        heads[x as usize] as usize,
        t,
    )
}

// Whether a triangle before number k is t, up to rotation; t is triangle k.
pub fn has_earlier(indices: &[u16], heads: &[u16], links: &[u32], k: usize, t: Triangle) -> bool
    requires linked { Linked (read_triangles indices.now) (length indices.now / 3 * 3) heads.now links.now }
    requires in_range { k < length indices.now / 3 }
    requires is_triangle { t ≡ triangle_at (read_triangles indices.now) k }
    ensures { result ≡ some_face (read_triangles indices.now) t k }
{
    walk(indices, heads, links, k, before_in(links[k * 3]), t)
}
