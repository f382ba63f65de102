// The flags of points and triangles. Each flag is set at first, and stays set if it passes every test.
ghost use Rattle.std.specs.Prelude.{◌≡◌, ◌&&◌, ◌/◌, ◌≤◌, ◌<◌, length};
ghost use Rattle.check_searches.specs.Points.{same_point};
ghost use Rattle.compare_differences.specs.Lacking.{lacks};
ghost use Rattle.compare_differences.specs.Meshes.{NoneRepeated, point_row};
ghost use Rattle.compare_table_flags.specs.Flags.{SideTable, Partnered, Narrowed, no_same_face, is_first};

use crate::face::has_face;
use check_searches::triangle::triangle_at;
use compare_differences::mesh::SoundMesh;
use triangle_table::has_earlier;

// Returns the flag of point k: unchanged if the other mesh lacks the point.
fn point_flag(points: &[u32], k: usize, others: &[u32], partners: &[u16], flag: bool) -> bool
    requires in_range { k < length points.now / 3 }
    requires distinct { NoneRepeated points.now }
    requires partnered { Partnered points.now others.now partners.now }
    ensures { result ≡ (flag && lacks same_point (point_row points.now) (point_row others.now) k) }
{
    flag && others.len() / 3 <= partners[k] as usize
}

pub fn flag_points(points: &[u32], others: &[u32], partners: &[u16], flags: &mut [bool])
    requires distinct { NoneRepeated points.now }
    requires partnered { Partnered points.now others.now partners.now }
    requires room { length points.now / 3 ≤ length flags.old }
    ensures { Narrowed (lacks same_point (point_row points.now) (point_row others.now)) (length points.now / 3) flags.old flags.new }
{
    for k in 0..points.len() / 3 {
        flags[k] = point_flag(points, k, others, partners, flags[k]);
    }
}

// Returns the flag of triangle k: unchanged if the other mesh lacks the triangle.
fn missing_flag(
    mesh: SoundMesh,
    k: usize,
    other: SoundMesh,
    partners: &[u16],
    heads: &[u16],
    links: &[u32],
    flag: bool,
) -> bool
    requires in_range { k < length mesh.indices.now / 3 }
    requires table { SideTable other.points.now other.indices.now heads.now links.now }
    requires partnered { Partnered mesh.points.now other.points.now partners.now }
    ensures { result ≡ (flag && no_same_face mesh.entry.points.now mesh.entry.indices.now other.entry.points.now other.entry.indices.now k) }
{
    flag && !has_face(
        mesh.points,
        triangle_at(mesh.indices, k),
        other,
        partners,
        heads,
        links,
    )
}

// Sets the flags of all triangles to that, with a table of the other mesh's sides.
pub fn flag_missing(
    mesh: SoundMesh,
    other: SoundMesh,
    partners: &[u16],
    heads: &[u16],
    links: &[u32],
    flags: &mut [bool],
)
    requires table { SideTable other.points.now other.indices.now heads.now links.now }
    requires partnered { Partnered mesh.points.now other.points.now partners.now }
    requires room { length mesh.indices.now / 3 ≤ length flags.old }
    ensures { Narrowed (no_same_face mesh.entry.points.now mesh.entry.indices.now other.entry.points.now other.entry.indices.now)
        (length mesh.entry.indices.now / 3) flags.old flags.new }
{
    for k in 0..mesh.indices.len() / 3 {
        flags[k] = missing_flag(mesh, k, other, partners, heads, links, flags[k]);
    }
}

// Returns the flag of triangle k: unchanged if no earlier triangle of its own mesh is the same.
fn first_flag(mesh: SoundMesh, k: usize, heads: &[u16], links: &[u32], flag: bool) -> bool
    requires in_range { k < length mesh.indices.now / 3 }
    requires table { SideTable mesh.points.now mesh.indices.now heads.now links.now }
    ensures { result ≡ (flag && is_first mesh.entry.points.now mesh.entry.indices.now k) }
{
    flag && !has_earlier(mesh.indices, heads, links, k, triangle_at(mesh.indices, k))
}

// Sets the flags of all triangles to that, with a table of the mesh's own sides.
pub fn flag_first(mesh: SoundMesh, heads: &[u16], links: &[u32], flags: &mut [bool])
    requires table { SideTable mesh.points.now mesh.indices.now heads.now links.now }
    requires room { length mesh.indices.now / 3 ≤ length flags.old }
    ensures { Narrowed (is_first mesh.entry.points.now mesh.entry.indices.now) (length mesh.entry.indices.now / 3) flags.old flags.new }
{
    for k in 0..mesh.indices.len() / 3 {
        flags[k] = first_flag(mesh, k, heads, links, flags[k]);
    }
}
