// The pieces of a recording on standard input, its header and up to 256 entries at a time: each is read and replayed.
#![tactic(auto)]

pub mod piece;
