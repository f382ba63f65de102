// The outline of a patch: its outer edges, and its points as words.
#![tactic(auto)]

pub mod edges;
pub mod words;
