// The points of quad patches.
#![tactic(auto)]

pub mod quad;
