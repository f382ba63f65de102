// The text of the answer for one patch.
#![tactic(auto)]

pub mod answer;
