// The check of any mesh for a patch: accepted, or its first fault.
#![tactic(auto)]

pub mod check;
mod fault;
