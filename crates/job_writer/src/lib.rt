// Writes job files: a header, then records, as `job` reads them.
#![tactic(auto)]

pub mod answer;
pub mod header;
pub mod record;
