// The pieces of the outline, and the search for a missing piece.
ghost use Rattle.std.specs.Prelude.{◌≡◌, ◌&&◌, ◌/◌, ◌≤◌, ◌<◌, length};
ghost use Rattle.mesh_geometry.specs.Cover.{next_point, piece};
ghost use Rattle.mesh_geometry.specs.Faces.{at, face_of};
ghost use Rattle.mesh_geometry.specs.Words.{read_points, read_triangles};
ghost use Rattle.check_searches.specs.Points.{same_point};
ghost use Rattle.check_faults.specs.Turns.{Numbered};
ghost use Rattle.check_faults.specs.Judged.{judged_by};
ghost use Rattle.check_faults.specs.Outline.{same_ends, on_outline, bounds, is_drawn, DrawnTo, first_missing};

use crate::mesh::NumberedMesh;
use check_searches::point::{point_at, same_point};
use check_searches::triangle::triangle_at;
use mesh_geometry::Point;
use strip::triangle::Triangle;

// Returns the point after point k of a closed outline.
fn next_point(outline: &[u32], k: usize) -> Point
    requires { k < length outline.now / 3 }
    ensures { result ≡ next_point (read_points outline.now) k }
{
    if k + 1 < outline.len() / 3 {
        point_at(outline, k + 1)
    } else {
        point_at(outline, 0)
    }
}

// Returns the start of piece k of the outline, in the orientation asked for.
fn piece_start(outline: &[u32], k: usize, positive: bool) -> Point
    requires { k < length outline.now / 3 }
    ensures { result ≡ (piece positive (read_points outline.now) k).start }
{
    if positive {
        point_at(outline, k)
    } else {
        next_point(outline, k)
    }
}

// Returns the end of piece k of the outline, in the orientation asked for.
fn piece_end(outline: &[u32], k: usize, positive: bool) -> Point
    requires { k < length outline.now / 3 }
    ensures { result ≡ (piece positive (read_points outline.now) k).end }
{
    if positive {
        next_point(outline, k)
    } else {
        point_at(outline, k)
    }
}

// Whether p→q is the directed side s→e.
fn same_ends(s: Point, e: Point, p: Point, q: Point) -> bool
    ensures { result ≡ (same_point s p && same_point e q) }
{
    same_point(s, p) & same_point(e, q)
}

// Whether p→q is piece k of the outline.
pub fn is_piece_at(outline: &[u32], k: usize, positive: bool, p: Point, q: Point) -> bool
    requires { k < length outline.now / 3 }
    ensures { result ≡ same_ends (piece positive (read_points outline.now) k) (record { start = p; end = q }) }
{
    same_ends(
        piece_start(outline, k, positive),
        piece_end(outline, k, positive),
        p,
        q,
    )
}

// Whether p→q is a piece of the outline.
pub(crate) fn is_piece(outline: &[u32], positive: bool, p: Point, q: Point) -> bool
    ensures { result ≡ on_outline positive (read_points outline.now) (record { start = p; end = q }) }
{
    for k in 0..outline.len() / 3 {
        if is_piece_at(outline, k, positive, p, q) {
            return true;
        }
    }
    false
}

// Whether p→q is a directed side of a triangle, by coordinates.
fn is_bounded(points: &[u32], t: Triangle, p: Point, q: Point) -> bool
    requires { Numbered (length (read_points points.now)) t }
    ensures { result ≡ bounds (face_of (at (read_points points.now)) t) (record { start = p; end = q }) }
{
    let a = point_at(points, t.a as usize);
    let b = point_at(points, t.b as usize);
    let c = point_at(points, t.c as usize);
    same_ends(a, b, p, q) | same_ends(b, c, p, q) | same_ends(c, a, p, q)
}

// Whether p→q is a directed side of one of the triangles, by coordinates.
fn is_drawn(mesh: NumberedMesh, p: Point, q: Point) -> bool
    ensures { result
        ≡ is_drawn (read_points mesh.entry.points.now) (read_triangles mesh.entry.indices.now) (record { start = p; end = q }) }
{
    let count = mesh.indices.len() / 3;
    for k in 0..count {
        if is_bounded(mesh.points, triangle_at(mesh.indices, k), p, q) {
            return true;
        }
    }
    false
}

// Returns the first piece of the outline that is not a side, or the number of pieces; those before number `from` are known to be sides.
pub fn first_missing(mesh: NumberedMesh, from: usize) -> usize
    requires within { from ≤ length mesh.outline.now / 3 }
    requires known { DrawnTo (judged_by mesh) from }
    ensures { result ≡ first_missing (judged_by mesh.entry) }
{
    let count = mesh.outline.len() / 3;
    for k in from..count {
        let start = piece_start(mesh.outline, k, mesh.positive);
        let end = piece_end(mesh.outline, k, mesh.positive);
        if !is_drawn(mesh, start, end) {
            return k;
        }
    }
    count
}
