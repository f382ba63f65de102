// The inner grid of a quad patch: the lines along its border, and the triangles of its cells.
#![tactic(auto)]

pub mod cells;
pub mod grid;
