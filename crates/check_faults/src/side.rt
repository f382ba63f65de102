// The search for an open side: one whose reverse is missing and that is not a piece of the outline.
ghost use Rattle.std.specs.Prelude.{◌≡◌, ◌*◌, ◌/◌, ◌≤◌, ◌<◌, length};
ghost use Rattle.mesh_geometry.specs.Words.{read_points};
ghost use Rattle.check_faults.specs.Judged.{judged_by};
ghost use Rattle.check_faults.specs.Outline.{start_corner, end_of, side_closed, closes, ClosedTo, first_open};

use crate::mesh::NumberedMesh;
use check_searches::point::point_at;
use check_searches::triangle::triangle_at;
use check_side_searches::near::has_side_near;
use strip::triangle::Triangle;

// Returns the vertex where side e of a triangle starts.
fn start_of(t: Triangle, e: usize) -> u16
    ensures { result ≡ start_corner t e }
{
    match e {
        0 => t.a,
        1 => t.b,
        _ => t.c,
    }
}

// Returns the vertex where side e of a triangle ends.
fn end_of(t: Triangle, e: usize) -> u16
    ensures { result ≡ end_of t e }
{
    match e {
        0 => t.b,
        1 => t.c,
        _ => t.a,
    }
}

// Whether the reverse of the side x→y is a side, searched from triangle `near` outwards, or the side is a piece of the outline.
fn is_joined(mesh: NumberedMesh, near: usize, x: u16, y: u16) -> bool
    requires within { near ≤ length mesh.indices.now / 3 }
    requires start { x < length (read_points mesh.points.now) }
    requires end { y < length (read_points mesh.points.now) }
    ensures { result ≡ side_closed (judged_by mesh.entry) x y }
{
    if has_side_near(mesh.indices, near, y, x) {
        return true;
    }
    crate::outline::is_piece(
        mesh.outline,
        mesh.positive,
        point_at(mesh.points, x as usize),
        point_at(mesh.points, y as usize),
    )
}

// The same for side m; each triangle has three sides.
fn is_closed(mesh: NumberedMesh, m: usize) -> bool
    requires { m < length mesh.indices.now / 3 * 3 }
    ensures { result ≡ closes (judged_by mesh.entry) m }
{
    let k = m / 3;
    let t = triangle_at(mesh.indices, k);
    let x = start_of(t, m % 3);
    let y = end_of(t, m % 3);
    is_joined(mesh, k, x, y)
}

// Returns the first open side, or the number of sides; those before number `from` are known to be closed.
pub fn first_open(mesh: NumberedMesh, from: usize) -> usize
    requires within { from ≤ length mesh.indices.now / 3 * 3 }
    requires known { ClosedTo (judged_by mesh) from }
    ensures { result ≡ first_open (judged_by mesh.entry) }
{
    let count = mesh.indices.len() / 3 * 3;
    for m in from..count {
        if !is_closed(mesh, m) {
            return m;
        }
    }
    count
}
