// The sides that are pieces of the outline, and the marks of those pieces.
ghost use Rattle.std.specs.Prelude.{◌≡◌, true, ◌*◌, ◌/◌, ◌≤◌, ◌<◌, length, set};
ghost use Rattle.mesh_geometry.specs.Cover.{piece};
ghost use Rattle.mesh_geometry.specs.Words.{read_points, read_triangles};
ghost use Rattle.check_faults.specs.Judged.{judged_by};
ghost use Rattle.check_faults.specs.Outline.{same_ends, closes, ClosedTo};
ghost use Rattle.half_edges.specs.Opens.{OpensListed};
ghost use Rattle.check_watertight.specs.Closing.{MarksDrawn, AllMarked};

use check_faults::mesh::NumberedMesh;
use check_faults::outline::is_piece_at;
use check_searches::point::point_at;
use half_edge_chains::number::end_at;
use mesh_geometry::Point;

// Returns the piece of the outline that is p→q, or the number of pieces; number `near` is tested first.
fn find_piece(outline: &[u32], near: usize, positive: bool, p: Point, q: Point) -> usize
    ensures { result < length (read_points outline.now) → same_ends (piece positive (read_points outline.now) result) (record { start = p; end = q }) ≡ true }
{
    let count = outline.len() / 3;
    if near < count {
        if is_piece_at(outline, near, positive, p, q) {
            return near;
        }
    }
    for k in 0..count {
        if is_piece_at(outline, k, positive, p, q) {
            return k;
        }
    }
    count
}

// Sets mark k, if the list has it.
fn set_mark(marks: &mut [u16], k: usize)
    ensures { marks.new ≡ set marks.old k 1 }
{
    if k < marks.len() {
        marks[k] = 1;
    }
}

// Marks the piece that side m is and returns its number, or returns the number of pieces; number `near` is tested first.
fn mark_piece(mesh: NumberedMesh, marks: &mut [u16], near: usize, m: usize) -> usize
    requires within { m < length mesh.indices.now / 3 * 3 }
    requires drawn { MarksDrawn (judged_by mesh) marks.old }
    ensures closed { result < length (read_points mesh.entry.outline.now) → closes (judged_by mesh.entry) m ≡ true }
    ensures marked { MarksDrawn (judged_by mesh.entry) marks.new }
{
    let p = point_at(mesh.points, mesh.indices[m] as usize);
    let q = point_at(mesh.points, end_at(mesh.indices, m) as usize);
    let k = find_piece(mesh.outline, near, mesh.positive, p, q);
    if k < mesh.outline.len() / 3 {
        set_mark(marks, k);
    }
    k
}

// Returns how many sides, from the first on, are closed. The first `count` entries of `opens` are all sides without a reverse;
// those that are pieces of the outline are marked, up to the first that is not a piece.
pub(crate) fn all_pieces(
    mesh: NumberedMesh,
    opens: &[u16],
    count: usize,
    marks: &mut [u16],
) -> usize
    requires within { count ≤ length opens.now }
    requires listed { OpensListed (read_triangles mesh.indices.now) (length (read_triangles mesh.indices.now) * 3) opens.now count }
    requires drawn { MarksDrawn (judged_by mesh) marks.old }
    ensures closed { (result ≤ length (read_triangles mesh.entry.indices.now) * 3) × ClosedTo (judged_by mesh.entry) result }
    ensures marked { MarksDrawn (judged_by mesh.entry) marks.new }
{
    let pieces = mesh.outline.len() / 3;
    let mut near = 0;
    for k in 0..count {
        let m = opens[k] as usize;
        let piece = mark_piece(mesh, marks, near, m);
        if pieces <= piece {
            return m;
        }
        near = piece + 1;
    }
    mesh.indices.len() / 3 * 3
}

// Returns how many of the first `count` marks, from the first on, are set.
pub(crate) fn first_unmarked(marks: &[u16], count: usize) -> usize
    ensures { (result ≤ count) × AllMarked marks.now result }
{
    for k in 0..count {
        if marks.len() <= k {
            return k;
        }
        if marks[k] == 0 {
            return k;
        }
    }
    count
}
