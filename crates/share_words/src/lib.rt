// Shared lists as numbers: the state, the quotas and the designer as words in a caller's memory, and the answers to drawing as replies.
#![tactic(auto)]

pub mod reply;
pub mod words;
