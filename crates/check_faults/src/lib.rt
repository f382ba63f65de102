// The faults that a mesh of triangles can have, and the searches for the first place of each.
#![tactic(auto)]

pub mod area;
pub mod inside;
pub mod mesh;
pub mod outline;
pub mod side;
