// Meshes of triangle and quad patches: where their points lie, and what is proved of their triangles.
#![tactic(auto)]

// A point of the domain, in whole units.
#[derive(Clone, Copy, PartialEq, Eq, Drop)]
pub struct Point {
    pub u: u32,
    pub v: u32,
    pub w: u32,
}

// A mesh as words: three of each point, and the three indices of each triangle.
#[derive(Clone, Copy, Drop)]
pub struct Mesh<'a> {
    pub points: &'a [u32],
    pub indices: &'a [u16],
}
