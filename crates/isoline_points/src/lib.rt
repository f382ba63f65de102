// The points of isolines.
#![tactic(auto)]

pub mod isoline;
