// Standard input and output for the programs. A failed read differs from the end of the input, and a failed write from a
// complete one. The contracts say how many bytes were moved; no contract can say which. That whoever read standard output has gone away
// is no failure to be told of: the program ends with a status for it.
#![tactic(auto)]

mod input;
mod output;
mod streams;

pub use input::{Input, read_front};
pub use output::{Output, tell, write_or_tell};
pub use streams::Streams;
