// One side of a comparison.
ghost use Rattle.std.specs.Option.{ForSome};
ghost use Rattle.compare_table_flags.specs.Flags.{MeshFlags};

use compare_differences::mesh::SoundMesh;
use compare_table_flags::flags::Flags;

// A mesh, the mesh that it is compared with, and its flags if they are known.
#[derive(Clone, Copy, Drop)]
pub(crate) struct Side<'a> {
    pub mesh: SoundMesh<'a>,
    pub other: SoundMesh<'a>,
    pub flags: Option<Flags<'a>>,
    pub ghost told: { ForSome flags (λ f. MeshFlags mesh.points.now mesh.indices.now other.points.now other.indices.now f.points.now f.faces.now) },
}
