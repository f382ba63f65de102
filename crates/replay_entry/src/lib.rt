// One entry of a recording: the recorded answer, and the answer that a replay gives.
#![tactic(auto)]

pub mod entry;
pub mod outcome;
mod patch_outcome;
