// The first fault of a mesh, by the outer edges of its patch.
ghost use Rattle.std.specs.Prelude.{◌≡◌, ◌+◌, ◌*◌, ◌≤◌, ◌<◌, length};
ghost use Rattle.check_verdict.specs.Faults.{mesh_fault};
ghost use Rattle.patch_outline.specs.Outlines.{outline_by, ValidEdges};

use check_verdict::fault::Fault;
use patch_outline::edges::OuterEdges;

// Returns the fault; WORDS is the room for the outline.
fn fault_by<const WORDS: usize>(
    edges: Option<OuterEdges>,
    triangles: bool,
    positive: bool,
    points: &[u32],
    indices: &[u16],
) -> Result<(), Fault>
    requires valid { ValidEdges edges }
    requires room { 3 * length (outline_by edges) + 3 ≤ WORDS }
    requires size { WORDS < 65536 }
    ensures { result ≡ mesh_fault triangles positive (outline_by edges) points.now indices.now }
{
    let mut words = [0u32; WORDS];
    let count = patch_outline::words::write_outline(&mut words, edges);
    let outline = &words[..];
    check_verdict::fault::mesh_fault(&outline[0..count], points, indices, triangles, positive)
}

// The same with as much room as the outline needs: for up to 63 points, so that a small patch does not clear the list of the
// largest, or for the largest outline, which has 4 * 64 points.
pub(crate) fn fault_within(
    edges: Option<OuterEdges>,
    triangles: bool,
    positive: bool,
    points: &[u32],
    indices: &[u16],
) -> Result<(), Fault>
    requires { ValidEdges edges }
    ensures { result ≡ mesh_fault triangles positive (outline_by edges) points.now indices.now }
{
    if patch_outline::edges::points_around(edges) < 64 {
        return fault_by::<192>(edges, triangles, positive, points, indices);
    }
    fault_by::<771>(edges, triangles, positive, points, indices)
}
