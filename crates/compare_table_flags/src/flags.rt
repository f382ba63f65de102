// The flags of a mesh.

// A flag for each point and each triangle of a mesh, at the front of two lists.
#[derive(Clone, Copy, Drop)]
pub struct Flags<'a> {
    pub points: &'a [bool],
    pub faces: &'a [bool],
}
