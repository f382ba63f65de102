// The search for the first point that equals an earlier point, fast for long lists.
#![tactic(auto)]

pub mod mark;
pub mod search;
