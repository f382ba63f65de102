// The check of a mesh: accepted, or its first fault.
ghost use Rattle.std.specs.Prelude.{◌≡◌};
ghost use Rattle.level.specs.Top.{Top};
ghost use Rattle.patch_mesh.specs.Demand.{outline};
ghost use Rattle.check_verdict.specs.Faults.{mesh_fault};
ghost use Rattle.check_soundness.specs.Checks.{is_isolines, is_triangles, is_empty};
ghost use Rattle.check_soundness.specs.Means.{CheckedExactly};

use check_verdict::fault::Fault;
use level::Spacing;
use patch::kinds::Patch;
use patch::settings::Settings;

// Whether a patch is an isoline patch.
fn is_isolines(patch: Patch) -> bool
    ensures { result ≡ is_isolines patch }
{
    matches!(patch, Patch::Isolines { .. })
}

// Whether a patch is a triangle patch.
fn is_triangles(patch: Patch) -> bool
    ensures { result ≡ is_triangles patch }
{
    matches!(patch, Patch::Triangles { .. })
}

// Whether the lists of points and indices are both empty.
fn is_empty(points: &[u32], indices: &[u16]) -> bool
    ensures { result ≡ is_empty points.now indices.now }
{
    points.is_empty() & indices.is_empty()
}

// Returns the first fault of a mesh for a patch that is not discarded.
fn patch_fault(
    patch: Patch,
    spacing: Spacing,
    top: u32,
    positive: bool,
    points: &[u32],
    indices: &[u16],
) -> Result<(), Fault>
    requires { Top top }
    ensures { result ≡ mesh_fault (is_triangles patch) positive (outline spacing top patch) points.now indices.now }
{
    let triangles = is_triangles(patch);
    let edges = patch_outline::edges::edges_of(patch, spacing, top);
    crate::fault::fault_within(edges, triangles, positive, points, indices)
}

// Checks a mesh; the points are three words each and the triangles three indices each, as drawing writes them.
pub fn check_mesh(
    patch: Patch,
    settings: Settings,
    points: &[u32],
    indices: &[u16],
) -> Result<(), Fault>
    ensures { CheckedExactly settings patch points.now indices.now result }
{
    let spacing = settings.spacing;
    let top = settings.top;
    let order = settings.order;
    let origin = settings.origin;
    if !level::is_top(top) {
        return Err(Fault::BadTop);
    }
    if is_isolines(patch) {
        return Err(Fault::Isolines);
    }
    if settings.point_mode {
        return Err(Fault::Dots);
    }
    let cut = patch::subdivision::subdivide(patch, spacing, top);
    if patch::subdivision::is_discarded(cut) {
        if is_empty(points, indices) {
            return Ok(());
        }
        return Err(Fault::ShouldBeDiscarded);
    }
    let positive = patch::settings::turns_positive(order, origin);
    patch_fault(patch, spacing, top, positive, points, indices)
}
