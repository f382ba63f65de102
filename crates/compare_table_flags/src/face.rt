// Whether a mesh has a triangle of the other mesh, by the partners of its corners and the chains of sides.
ghost use Rattle.std.specs.Prelude.{◌≡◌, ◌/◌, length};
ghost use Rattle.mesh_geometry.specs.Faces.{at, face_of};
ghost use Rattle.mesh_geometry.specs.Words.{read_points};
ghost use Rattle.compare_differences.specs.Lacking.{among};
ghost use Rattle.compare_differences.specs.Meshes.{face_row, same_face};
ghost use Rattle.compare_differences.specs.Found.{Cornered};
ghost use Rattle.compare_table_flags.specs.Flags.{SideTable, Partnered};

use compare_differences::mesh::SoundMesh;
use strip::triangle::Triangle;
use triangle_table::has_triangle;

// Whether a triangle of the other mesh is t, up to rotation.
pub(crate) fn has_face(
    points: &[u32],
    t: Triangle,
    other: SoundMesh,
    partners: &[u16],
    heads: &[u16],
    links: &[u32],
) -> bool
    requires cornered { Cornered (length points.now / 3) t }
    requires table { SideTable other.points.now other.indices.now heads.now links.now }
    requires partnered { Partnered points.now other.points.now partners.now }
    ensures { result ≡ among same_face (face_row other.entry.points.now other.entry.indices.now)
        (face_row other.entry.points.now other.entry.indices.now).count (face_of (at (read_points points.now)) t) }
{
    let count = other.points.len() / 3;
    let x = partners[t.a as usize];
    if count <= x as usize {
        return false;
    }
    let y = partners[t.b as usize];
    if count <= y as usize {
        return false;
    }
    let z = partners[t.c as usize];
    if count <= z as usize {
        return false;
    }
    has_triangle(other.indices, heads, links, Triangle { a: x, b: y, c: z })
}
