// What the calls for job files take and leave in the caller's memory, as numbers: versions, records, and what reading finds.
#![tactic(auto)]

pub mod found;
pub mod input;
pub mod version;
