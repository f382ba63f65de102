// One vertex list and one index list that two designers share: the state that says which words belong to whom, starting, and
// clearing a designer's part.
#![tactic(auto)]

pub mod answer;
pub mod clear;
pub mod shared_list;
pub mod start;
pub mod state;
