// How many indices a primitive has.
ghost use Rattle.std.specs.Prelude.{◌≡◌};
ghost use Rattle.mesh_text.specs.Widths.{width_of};

use patch::kinds::Patch;

pub fn width_of(patch: Patch, point_mode: bool) -> usize
    ensures { result ≡ width_of point_mode patch }
{
    if point_mode {
        return 1;
    }
    match patch {
        Patch::Triangles { .. } | Patch::Quads { .. } => 3,
        Patch::Isolines { .. } => 2,
    }
}
