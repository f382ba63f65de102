// A cut patch: how many points and indices it has, and how both are written.
#![tactic(auto)]

pub mod connect;
pub mod count;
pub mod place;
