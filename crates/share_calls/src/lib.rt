// Runs of the exported calls on shared lists: one designer's calls do not affect what the other gets, also with refusals that
// only calls from C can have, and what one call appends. Definitions and theorems, with no code to run.
#![tactic(auto)]
