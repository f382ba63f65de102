// One strip between an outer and an inner line of vertices: the lines, the rule that says which one advances, and the triangles.
#![tactic(auto)]

pub mod line;
pub mod state;
pub mod triangle;
