// A table of the directed sides of a mesh, chained by the vertex where they start, and the search for a side.
#![tactic(auto)]

pub mod chain;
pub mod number;
