// A flag for each point and triangle of two meshes, set if it is a difference. Tables of the points and the sides of one mesh at a
// time give all flags at once; meshes that are too large for the tables get no flags.
#![tactic(auto)]

pub mod meshes;
mod side;
