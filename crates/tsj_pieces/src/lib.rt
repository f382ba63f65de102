// The pieces of a job on standard input, its header and up to 256 records at a time: each is read, answered and written to standard
// output.
#![tactic(auto)]

pub mod chunk;
mod failures;
pub mod header;
