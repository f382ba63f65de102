// A fast proof that a mesh is watertight, by a table of sides: every directed side occurs once, and its reverse is a side or it
// is a piece of the outline; no piece is missing. If the proof fails, the mesh may or may not have a fault.
#![tactic(auto)]

pub mod closing;
mod pieces;
