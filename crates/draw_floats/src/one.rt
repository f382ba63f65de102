// The number that represents 1 in a patch's coordinates.
ghost use Rattle.std.specs.Prelude.{◌≡◌};
ghost use Rattle.patch_mesh.specs.Coordinates.{one};

use patch::kinds::Patch;

pub(crate) fn one_of(patch: Patch) -> u32
    ensures { result ≡ one patch }
{
    match patch {
        Patch::Triangles { .. } => 196608,
        Patch::Quads { .. } | Patch::Isolines { .. } => 65536,
    }
}
