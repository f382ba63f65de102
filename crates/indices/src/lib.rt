// The indices of quad patches, isolines and point mode: which vertices make up each triangle, line and dot.
#![tactic(auto)]

pub mod dot;
pub mod isoline;
pub mod quad;
