// Drawing into a designer's part of shared lists.
#![tactic(auto)]

pub mod answer;
mod append;
pub mod draw;
