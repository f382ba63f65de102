// Points as words, three per point, and what the writers of all kinds of patch share: the point at a place of an edge, and points in rows.
#![tactic(auto)]

pub mod grid;
pub mod place;
