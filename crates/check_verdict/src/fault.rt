// The faults of a mesh, in the order of finding.
ghost use Rattle.std.specs.Prelude.{◌≡◌, ◌*◌, ◌/◌, ◌≤◌, length};
ghost use Rattle.mesh_geometry.specs.Words.{read_points};
ghost use Rattle.check_faults.specs.Judged.{judged_by};
ghost use Rattle.check_faults.specs.Turns.{AllSmall};
ghost use Rattle.check_faults.specs.Outline.{ClosedTo, DrawnTo};
ghost use Rattle.check_verdict.specs.Faults.{outline_fault, side_fault, point_fault, mesh_fault};

use check_faults::mesh::NumberedMesh;

// A fault of a mesh, by its kind, in this order, and the first place of that kind. Points, indices, triangles, a triangle's
// corners and the outline's pieces are numbered from 0.
#[derive(Clone, Copy, Debug, PartialEq, Eq, Drop)]
pub enum Fault {
    // The top level is bad (number 11).
    BadTop,
    Isolines,
    Dots,
    ShouldBeDiscarded,
    // The number of point words or of indices is not a multiple of three.
    NotThrees,
    // The index at `place` is not the number of a point.
    UnknownIndex { place: usize },
    Outside { point: usize },
    EqualPoints { first: usize, second: usize },
    // A triangle with no area or the wrong orientation.
    Turned { triangle: usize },
    // Two triangles with a directed side in common.
    SideTwice { first: usize, second: usize },
    // The side that starts at this corner has no reverse and is not a piece of the outline.
    OpenSide { triangle: usize, corner: usize },
    // This piece of the outline is not a side.
    MissingPiece { piece: usize },
}

// Returns the first open side, else the first missing piece; the first `joined` sides are known to be closed, and the first
// `drawn` pieces to be sides.
fn outline_fault(mesh: NumberedMesh, joined: usize, drawn: usize) -> Result<(), Fault>
    requires joined_within { joined ≤ length mesh.indices.now / 3 * 3 }
    requires closed { ClosedTo (judged_by mesh) joined }
    requires drawn_within { drawn ≤ length mesh.outline.now / 3 }
    requires drawn { DrawnTo (judged_by mesh) drawn }
    ensures { result ≡ outline_fault (judged_by mesh.entry) }
{
    let side = check_faults::side::first_open(mesh, joined);
    if side < mesh.indices.len() / 3 * 3 {
        return Err(Fault::OpenSide {
            triangle: side / 3,
            corner: side % 3,
        });
    }
    let piece = check_faults::outline::first_missing(mesh, drawn);
    if piece < mesh.outline.len() / 3 {
        return Err(Fault::MissingPiece { piece });
    }
    Ok(())
}

// Returns the first triangle of the wrong orientation, else the first repeated side, else `outline_fault`. A table of sides
// shows up to where no fault occurs, and each search starts there.
fn side_fault(mesh: NumberedMesh) -> Result<(), Fault>
    requires { AllSmall (read_points mesh.points.now) }
    ensures { result ≡ side_fault (judged_by mesh.entry) }
{
    let indices = mesh.indices;
    let count = indices.len() / 3;
    let triangle = check_faults::area::first_turned(mesh);
    if triangle < count {
        return Err(Fault::Turned { triangle });
    }
    let known = check_watertight::closing::reach(mesh);
    let reused = check_side_searches::pair::first_reused(indices, known.once);
    if reused < count {
        let t = check_searches::triangle::triangle_at(indices, reused);
        return Err(Fault::SideTwice {
            first: check_side_searches::pair::first_sharing(indices, t, reused),
            second: reused,
        });
    }
    outline_fault(mesh, known.joined, known.drawn)
}

// Returns the first fault of points, else `side_fault`.
fn point_fault(mesh: NumberedMesh, triangles: bool) -> Result<(), Fault>
    ensures { result ≡ point_fault triangles (judged_by mesh.entry) }
{
    let points = mesh.points;
    let count = points.len() / 3;
    let point = check_faults::inside::first_outside(points, triangles);
    if point < count {
        return Err(Fault::Outside { point });
    }
    let repeated = equal_points::search::first_repeated(points);
    if repeated < count {
        let q = check_searches::point::point_at(points, repeated);
        return Err(Fault::EqualPoints {
            first: check_searches::point::first_equal(points, q, repeated),
            second: repeated,
        });
    }
    side_fault(mesh)
}

// Returns the first fault of a mesh of a triangle or quad patch; the outline's points and the orientation asked for are given.
#[tactic(auto, using(crate::proofs::Chain::points_not_threes, crate::proofs::Chain::indices_not_threes))]
pub fn mesh_fault(
    outline: &[u32],
    points: &[u32],
    indices: &[u16],
    triangles: bool,
    positive: bool,
) -> Result<(), Fault>
    ensures { result ≡ mesh_fault triangles positive (read_points outline.now) points.now indices.now }
{
    if points.len() % 3 != 0 {
        return Err(Fault::NotThrees);
    }
    if indices.len() % 3 != 0 {
        return Err(Fault::NotThrees);
    }
    let place = check_searches::index::first_unknown(indices, points.len() / 3);
    if place < indices.len() {
        return Err(Fault::UnknownIndex { place });
    }
    let mesh = NumberedMesh {
        outline,
        points,
        indices,
        positive,
    };
    point_fault(mesh, triangles)
}
