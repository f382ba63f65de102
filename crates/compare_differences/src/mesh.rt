// A mesh that can be compared.
ghost use Rattle.std.specs.Prelude.{ℕ, ◌^◌, ◌<◌, slice_index};
ghost use Rattle.compare_differences.specs.Meshes.{DistinctAndNumbered};

// No two points are equal, and each index is the number of a point.
#[derive(Clone, Copy, Drop)]
pub struct SoundMesh<'a> {
    pub points: &'a [u32],
    pub indices: &'a [u16],
    pub ghost sound: { DistinctAndNumbered points.now indices.now },
    pub ghost small: { (k : ℕ) → slice_index indices.now k < 2 ^ 16 },
}
