// The flags that the tables of one mesh give: for the points and triangles of the other mesh, whether this mesh lacks them, and for its own
// triangles, whether each is the first of its kind. Only one table exists at a time, so that the stack stays small.
ghost use Rattle.std.specs.Prelude.{◌/◌, ◌≤◌, ◌<◌, length};
ghost use Rattle.check_searches.specs.Points.{same_point};
ghost use Rattle.half_edge_chains.specs.Links.{Zeros};
ghost use Rattle.compare_differences.specs.Lacking.{lacks};
ghost use Rattle.compare_differences.specs.Meshes.{point_row};
ghost use Rattle.compare_table_flags.specs.Flags.{ManySides, Narrowed, no_same_face, is_first};
ghost use Rattle.compare_flags.specs.Sides.{Flaggable, FacesFlagged};

use compare_differences::mesh::SoundMesh;
use compare_table_flags::flag::{flag_first, flag_missing, flag_points};
use compare_table_flags::partner::match_points;

// Sets the flags of triangles with a lent table, which is empty and has room for the other mesh.
fn flag_by(
    mesh: SoundMesh,
    other: SoundMesh,
    partners: &[u16],
    heads: &mut [u16],
    links: &mut [u32],
    flags: &mut [bool],
    other_flags: &mut [bool],
)
    requires flaggable { Flaggable mesh.points.now mesh.indices.now other.points.now other.indices.now partners.now flags.old other_flags.old }
    requires few { ManySides other.points.now other.indices.now }
    requires empty { Zeros heads.old }
    requires room { (length other.points.now / 3 ≤ length heads.old) × (length other.indices.now ≤ length links.old) }
    ensures { FacesFlagged mesh.entry.points.now mesh.entry.indices.now other.entry.points.now other.entry.indices.now flags.old
        flags.new other_flags.old other_flags.new }
{
    triangle_table::fill(other.indices, heads, links);
    flag_missing(mesh, other, partners, heads, links, flags);
    flag_first(other, heads, links, other_flags);
}

// The same with a table for up to POINTS points and SIDES sides.
fn flag_by_table<const POINTS: usize, const SIDES: usize>(
    mesh: SoundMesh,
    other: SoundMesh,
    partners: &[u16],
    flags: &mut [bool],
    other_flags: &mut [bool],
)
    requires flaggable { Flaggable mesh.points.now mesh.indices.now other.points.now other.indices.now partners.now flags.old other_flags.old }
    requires few { ManySides other.points.now other.indices.now }
    requires room { (length other.points.now / 3 ≤ POINTS) × (length other.indices.now ≤ SIDES) }
    requires small { (POINTS < 65536) × (SIDES < 65536) }
    ensures { FacesFlagged mesh.entry.points.now mesh.entry.indices.now other.entry.points.now other.entry.indices.now flags.old
        flags.new other_flags.old other_flags.new }
{
    let mut heads = [0u16; POINTS];
    let mut links = [0u32; SIDES];
    flag_by(
        mesh,
        other,
        partners,
        &mut heads,
        &mut links,
        flags,
        other_flags,
    );
}

// The same with a table as large as the other mesh needs: up to 64 points and 128 triangles, or up to 8192 points and 8448 triangles.
fn flag_faces(
    mesh: SoundMesh,
    other: SoundMesh,
    partners: &[u16],
    flags: &mut [bool],
    other_flags: &mut [bool],
)
    requires flaggable { Flaggable mesh.points.now mesh.indices.now other.points.now other.indices.now partners.now flags.old other_flags.old }
    requires few { ManySides other.points.now other.indices.now }
    ensures { FacesFlagged mesh.entry.points.now mesh.entry.indices.now other.entry.points.now other.entry.indices.now flags.old
        flags.new other_flags.old other_flags.new }
{
    if other.points.len() <= 192 && other.indices.len() <= 384 {
        flag_by_table::<64, 384>(mesh, other, partners, flags, other_flags);
    } else {
        flag_by_table::<8192, 25344>(mesh, other, partners, flags, other_flags);
    }
}

// Sets the flags of points and triangles, with a table of the other mesh's points first, then with one of its sides.
pub(crate) fn flag_side(
    mesh: SoundMesh,
    other: SoundMesh,
    point_flags: &mut [bool],
    face_flags: &mut [bool],
    other_flags: &mut [bool],
)
    requires few { ManySides mesh.points.now mesh.indices.now × ManySides other.points.now other.indices.now }
    requires room { (length mesh.points.now / 3 ≤ length point_flags.old) × (length mesh.indices.now / 3 ≤ length face_flags.old) ×
        (length other.indices.now / 3 ≤ length other_flags.old) }
    ensures points { Narrowed (lacks same_point (point_row mesh.entry.points.now) (point_row other.entry.points.now))
        (length mesh.entry.points.now / 3) point_flags.old point_flags.new }
    ensures faces { Narrowed (no_same_face mesh.entry.points.now mesh.entry.indices.now other.entry.points.now other.entry.indices.now)
        (length mesh.entry.indices.now / 3) face_flags.old face_flags.new }
    ensures other_faces { Narrowed (is_first other.entry.points.now other.entry.indices.now) (length other.entry.indices.now / 3)
        other_flags.old other_flags.new }
{
    let mut partners = [0u16; 8192];
    match_points(mesh.points, other.points, &mut partners);
    flag_points(mesh.points, other.points, &partners, point_flags);
    flag_faces(mesh, other, &partners, face_flags, other_flags);
}
