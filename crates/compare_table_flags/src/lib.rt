// A flag for each point and triangle of a mesh, by given tables: whether the other mesh lacks it, and whether a triangle is the first of its
// kind.
#![tactic(auto)]

mod face;
pub mod flag;
pub mod flags;
pub mod partner;
