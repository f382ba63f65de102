// The differences between two meshes: whether a point or a triangle is a difference, by its flag or by a search, how many differences there
// are, and their words.
#![tactic(auto)]

pub mod all;
mod ask;
mod list;
mod side;
