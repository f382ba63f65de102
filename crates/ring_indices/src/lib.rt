// The triangles along rings of vertices: strips from a ring's edges to a line inside, and the bands between nested rings.
#![tactic(auto)]

pub mod nest;
pub mod ring;
