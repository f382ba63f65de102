// The flags of two meshes.
ghost use Rattle.std.specs.Prelude.{◌≡◌, true, IfOk};
ghost use Rattle.compare_table_flags.specs.Flags.{ManySides, AllSet, MeshFlags};

use crate::side::flag_side;
use compare_differences::mesh::SoundMesh;

// Whether the tables have room for a mesh: up to 8192 points and 8448 triangles. The largest patch has 4225 points and 8192 triangles.
fn has_room(mesh: SoundMesh) -> bool
    ensures { result ≡ true → ManySides mesh.entry.points.now mesh.entry.indices.now }
{
    mesh.points.len() <= 24576 && mesh.indices.len() <= 25344
}

// A mesh is too large for the tables, so no flags are known.
#[derive(Clone, Copy, Debug, PartialEq, Eq, Drop)]
pub struct TooLarge;

// Clears the flags of all points and triangles that are not differences. Every flag is set before the call.
pub fn flag_meshes(
    left: SoundMesh,
    right: SoundMesh,
    left_point_flags: &mut [bool],
    left_face_flags: &mut [bool],
    right_point_flags: &mut [bool],
    right_face_flags: &mut [bool],
) -> Result<(), TooLarge>
    requires left_set { AllSet 8192 left_point_flags.old × AllSet 8448 left_face_flags.old }
    requires right_set { AllSet 8192 right_point_flags.old × AllSet 8448 right_face_flags.old }
    ensures left_told { IfOk result (λ _. MeshFlags left.entry.points.now left.entry.indices.now right.entry.points.now
        right.entry.indices.now left_point_flags.new left_face_flags.new) }
    ensures right_told { IfOk result (λ _. MeshFlags right.entry.points.now right.entry.indices.now left.entry.points.now
        left.entry.indices.now right_point_flags.new right_face_flags.new) }
{
    if !has_room(left) {
        return Err(TooLarge);
    }
    if !has_room(right) {
        return Err(TooLarge);
    }
    flag_side(
        left,
        right,
        left_point_flags,
        left_face_flags,
        right_face_flags,
    );
    flag_side(
        right,
        left,
        right_point_flags,
        right_face_flags,
        left_face_flags,
    );
    Ok(())
}
