// The text for a job: its title, and the answers to its records.
#![tactic(auto)]

pub mod header;
pub mod records;
