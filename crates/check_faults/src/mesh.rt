// A mesh that is judged.
ghost use Rattle.std.specs.Prelude.{length};
ghost use Rattle.mesh_geometry.specs.Words.{read_points};
ghost use Rattle.check_searches.specs.Indices.{AllNumbered};

// A mesh each of whose indices is the number of a point, and what it is judged by: the points of the patch's outline in walk
// order, and the orientation asked for.
#[derive(Clone, Copy, Drop)]
pub struct NumberedMesh<'a> {
    pub outline: &'a [u32],
    pub points: &'a [u32],
    pub indices: &'a [u16],
    pub positive: bool,
    pub ghost numbered: { AllNumbered (length (read_points points.now)) indices.now },
}
