// Searches among triangles that skip those without a given vertex: for a directed side that two triangles have, for a directed
// side near a triangle, and for a triangle by its corners.
#![tactic(auto)]

pub mod near;
pub mod pair;
pub mod same;
