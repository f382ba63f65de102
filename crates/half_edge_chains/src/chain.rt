// A table of directed sides in chains. `heads` has, for each vertex, one more than the last side that starts there, or 0. `links` has,
// for each side, the value that `heads` had before it, times 65536, plus the vertex where the side ends. Each triangle has three sides.
ghost use Rattle.std.specs.Prelude.{◌≡◌, ◌+◌, ◌/◌, ◌%◌, ◌<◌, length};
ghost use Rattle.mesh_geometry.specs.Words.{read_triangles};
ghost use Rattle.check_searches.specs.First.{some_below};
ghost use Rattle.half_edge_chains.specs.Sides.{side_start, side_end, is_side};
ghost use Rattle.half_edge_chains.specs.Links.{Linked};

// Returns the vertex where a link's side ends.
pub fn end_in(link: u32) -> u16
    ensures { result ≡ link % 65536 }
{
    (link % 65536) as u16
}

// Returns one more than the side before a link's side in its chain, or 0.
pub fn before_in(link: u32) -> usize
    ensures { result ≡ link / 65536 }
{
    (link / 65536) as usize
}

// Whether one of the first `sides` sides, which the table holds, is x→y.
pub fn has_side(indices: &[u16], sides: usize, heads: &[u16], links: &[u32], x: u16, y: u16) -> bool
    requires held { Linked (read_triangles indices.now) sides heads.now links.now }
    requires start { x < length heads.now }
    ensures { result ≡ some_below (is_side (read_triangles indices.now) x y) sides }
{
    let mut k = heads[x as usize] as usize;
    // Kept: the loop walks a chain of links, each of which holds the next number, so no range gives its steps.
    while 0 < k {
        let link = links[k - 1];
        if end_in(link) == y {
            return true;
        }
        k = before_in(link);
    }
    false
}

// Adds side m, which is x→y, to the table of the sides before it.
pub fn add_side(indices: &[u16], m: usize, heads: &mut [u16], links: &mut [u32], x: u16, y: u16)
    requires fact_1 { Linked (read_triangles indices.now) m heads.old links.old }
    requires fact_2 { x ≡ side_start (read_triangles indices.now) m }
    requires fact_3 { y ≡ side_end (read_triangles indices.now) m }
    requires fact_4 { x < length heads.old }
    requires fact_5 { (m < length links.old) × (m < 65535) }
    ensures { Linked (read_triangles indices.now) (m + 1) heads.new links.new }
{
    let before = heads[x as usize];
    links[m] = (before as u32) * 65536 + (y as u32);
    heads[x as usize] = (m + 1) as u16;
}
