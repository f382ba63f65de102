// The fields of a record of a job file: numbers as bytes, the setting bytes, the top level, the six levels, and how many bytes each version has.
#![tactic(auto)]

pub mod levels;
pub mod setting;
pub mod top;
pub mod version;
pub mod word;
