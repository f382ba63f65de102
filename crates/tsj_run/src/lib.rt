// The run of the program: reads a job from standard input and writes the text that answers it to standard output.
#![tactic(auto)]

mod records;
pub mod run;
