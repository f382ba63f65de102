// Sides by number, three per triangle.
ghost use Rattle.std.specs.Prelude.{◌≡◌, ◌*◌, ◌/◌, ◌<◌, length};
ghost use Rattle.mesh_geometry.specs.Words.{read_triangles};
ghost use Rattle.half_edge_chains.specs.Sides.{side_end};

// Returns the vertex where side m ends.
pub fn end_at(indices: &[u16], m: usize) -> u16
    requires { m < length indices.now / 3 * 3 }
    ensures { result ≡ side_end (read_triangles indices.now) m }
{
    if m % 3 == 2 {
        indices[m - 2]
    } else {
        indices[m + 1]
    }
}
