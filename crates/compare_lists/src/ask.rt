// Whether a point or a triangle is a difference: by its flag if the flags are known, else by a search.
ghost use Rattle.std.specs.Prelude.{◌≡◌, ◌/◌, ◌<◌, length};
ghost use Rattle.check_searches.specs.Points.{same_point};
ghost use Rattle.compare_differences.specs.Lacking.{lacks};
ghost use Rattle.compare_differences.specs.Meshes.{point_row, face_row, same_face};

use crate::side::Side;

pub(crate) fn lacks_point(side: &Side, k: usize) -> bool
    requires { k < length side.now.mesh.points.now / 3 }
    ensures { result ≡ lacks same_point (point_row side.now.mesh.points.now) (point_row side.now.other.points.now) k }
{
    match side.flags {
        Some(flags) => flags.points[k],
        None => compare_differences::side::lacks_point(side.mesh.points, k, side.other.points),
    }
}

pub(crate) fn lacks_face(side: &Side, k: usize) -> bool
    requires { k < length side.now.mesh.indices.now / 3 }
    ensures { result ≡ lacks same_face (face_row side.now.mesh.points.now side.now.mesh.indices.now)
        (face_row side.now.other.points.now side.now.other.indices.now) k }
{
    match side.flags {
        Some(flags) => flags.faces[k],
        None => compare_differences::side::lacks_face(side.mesh, k, side.other),
    }
}
