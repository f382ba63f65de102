// The comparison of two meshes.
ghost use Rattle.std.specs.Option.{ForSome};
ghost use Rattle.std.specs.Prelude.{◌≡◌, IfOk, MatchResult, Ok, Err};
ghost use Rattle.compare_differences.specs.Meshes.{read_mesh};
ghost use Rattle.compare_differences.specs.Differences.{differences};
ghost use Rattle.compare_table_flags.specs.Flags.{MeshFlags};
ghost use Rattle.compare_meshes.specs.Answers.{checked, DifferencesListed, Compared};

use crate::answer::{CompareRefusal, Fault};
use crate::same::same_mesh;
use compare_differences::mesh::SoundMesh;
use compare_flags::meshes::{TooLarge, flag_meshes};
use compare_lists::all::{count_differences, write_differences};
use compare_table_flags::flags::Flags;
use mesh_geometry::Mesh;

// Whether a mesh can be compared.
fn check_mesh(points: &[u32], indices: &[u16]) -> Result<(), Fault>
    ensures { result ≡ checked points.now indices.now }
{
    if points.len() % 3 != 0 {
        return Err(Fault::NotThrees);
    }
    if indices.len() % 3 != 0 {
        return Err(Fault::NotThrees);
    }
    let count = points.len() / 3;
    if check_searches::index::first_unknown(indices, count) < indices.len() {
        return Err(Fault::UnknownIndex);
    }
    if equal_points::search::first_repeated(points) < count {
        return Err(Fault::EqualPoints);
    }
    Ok(())
}

// Returns the mesh if it can be compared.
fn sound_mesh<'a>(points: &'a [u32], indices: &'a [u16]) -> Result<SoundMesh<'a>, Fault>
    ensures verdict { MatchResult result (λ _. checked points.now indices.now ≡ Ok tt) (λ f. checked points.now indices.now ≡ Err f) }
    ensures words { IfOk result (λ m. (m.points.now ≡ points.now) × (m.indices.now ≡ indices.now)) }
{
    check_mesh(points, indices)?;
    Ok(SoundMesh { points, indices })
}

// Counts the differences between two meshes, and writes them to the front of the list if they fit.
fn list_by_flags(
    left: SoundMesh,
    right: SoundMesh,
    left_flags: Option<Flags>,
    right_flags: Option<Flags>,
    out: &mut [u64],
) -> Result<usize, CompareRefusal>
    requires left_told { ForSome left_flags (λ f. MeshFlags left.points.now left.indices.now right.points.now right.indices.now
        f.points.now f.faces.now) }
    requires right_told { ForSome right_flags (λ f. MeshFlags right.points.now right.indices.now left.points.now left.indices.now
        f.points.now f.faces.now) }
    ensures { DifferencesListed (differences (read_mesh left.entry.points.now left.entry.indices.now)
        (read_mesh right.entry.points.now right.entry.indices.now)) out.old out.new result }
{
    let n = count_differences(left, right, left_flags, right_flags);
    if n == 0 {
        return Ok(0);
    }
    if out.len() / 3 < n {
        return Err(CompareRefusal::NoRoom(n));
    }
    write_differences(out, left, right, left_flags, right_flags);
    Ok(n)
}

// The same without given flags. Meshes with the same words have no differences; for others flags are set first, if the tables have room.
fn list_differences(
    left: SoundMesh,
    right: SoundMesh,
    out: &mut [u64],
) -> Result<usize, CompareRefusal>
    ensures { DifferencesListed (differences (read_mesh left.entry.points.now left.entry.indices.now)
        (read_mesh right.entry.points.now right.entry.indices.now)) out.old out.new result }
{
    if same_mesh(left, right) {
        return Ok(0);
    }
    let mut left_point_flags = [true; 8192];
    let mut left_face_flags = [true; 8448];
    let mut right_point_flags = [true; 8192];
    let mut right_face_flags = [true; 8448];
    match flag_meshes(
        left,
        right,
        &mut left_point_flags,
        &mut left_face_flags,
        &mut right_point_flags,
        &mut right_face_flags,
    ) {
        Ok(()) => {
            let left_flags = Flags {
                points: &left_point_flags,
                faces: &left_face_flags,
            };
            let right_flags = Flags {
                points: &right_point_flags,
                faces: &right_face_flags,
            };
            list_by_flags(left, right, Some(left_flags), Some(right_flags), out)
        }
        Err(TooLarge) => list_by_flags(left, right, None, None, out),
    }
}

// Compares two meshes: writes three words for each point and triangle that only one of them has, and returns how many there are.
pub fn compare(left: Mesh, right: Mesh, out: &mut [u64]) -> Result<usize, CompareRefusal>
    ensures { Compared (record { points = left.entry.points.now; indices = left.entry.indices.now })
        (record { points = right.entry.points.now; indices = right.entry.indices.now }) out.old out.new result }
{
    let sound_left = match sound_mesh(left.points, left.indices) {
        Ok(mesh) => mesh,
        Err(fault) => return Err(CompareRefusal::Left(fault)),
    };
    let sound_right = match sound_mesh(right.points, right.indices) {
        Ok(mesh) => mesh,
        Err(fault) => return Err(CompareRefusal::Right(fault)),
    };
    list_differences(sound_left, sound_right, out)
}
