// The triangles of a patch by vertex number, and their sides. Definitions and proofs, with no code to run.
#![tactic(auto)]
