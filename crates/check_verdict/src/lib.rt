// The first fault of a mesh.
#![tactic(auto)]

pub mod fault;
