// The text of a drawn patch, from the two lists into which it was drawn.
#![tactic(auto)]

pub mod lists;
pub mod width;
