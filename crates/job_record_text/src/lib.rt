// The text for one record of a job, or for what is in its place.
#![tactic(auto)]

pub mod reply;
