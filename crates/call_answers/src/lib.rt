// Replies: what a call returns to its caller. Every answer is a number with at most two values, and measuring adds a byte for
// each level. This crate turns answers into these numbers and writes them to the caller's memory.
#![tactic(auto)]

pub mod clamps;
pub mod reply;
