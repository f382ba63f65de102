// What one of two meshes has and the other lacks: whether a point or a triangle, by its number, is a difference.
#![tactic(auto)]

mod corners;
pub mod mesh;
mod place;
mod point;
pub mod side;
mod window;
