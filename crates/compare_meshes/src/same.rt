// Whether two meshes have the same words.
ghost use Rattle.std.specs.Prelude.{◌≡◌, true};

use compare_differences::mesh::SoundMesh;

// Whether two meshes are equal word by word.
pub(crate) fn same_mesh(left: SoundMesh, right: SoundMesh) -> bool
    ensures { result ≡ true → (left.entry.points.now ≡ right.entry.points.now) × (left.entry.indices.now ≡ right.entry.indices.now) }
{
    left.points == right.points && left.indices == right.indices
}
