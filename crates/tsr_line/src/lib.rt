// The line that says what a replay found.
#![tactic(auto)]

pub mod sentence;
