// What checking a mesh found, as numbers in a caller's memory.
#![tactic(auto)]

pub mod found;
