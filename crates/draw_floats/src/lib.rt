// Drawing with floats: points, indices and `f32` coordinates in one call, into all three lists or none of them.
#![tactic(auto)]

pub mod draw;
mod one;
pub mod refusal;
mod room;
