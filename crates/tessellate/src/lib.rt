// The operations that draw: one writes the points of a patch, one its indices.
#![tactic(auto)]

pub mod draw;
pub mod refusal;
