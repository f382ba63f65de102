// The answer to drawing into a designer's part, found before anything is written: the answers, and which of them applies.
#![tactic(auto)]

pub mod answer;
pub mod verdict;
