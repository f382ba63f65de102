// The directed sides of a mesh in a table, rows of bits for a small mesh, else chains: whether a side is repeated, and which
// sides have no reverse.
#![tactic(auto)]

pub mod filling;
pub mod lent;
pub mod opens;
pub mod table;
pub mod views;
