// Compares two triangle meshes: the points and triangles that one has and the other lacks.
#![tactic(auto)]

pub mod answer;
mod same;
pub mod tool;
