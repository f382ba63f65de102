// Runs of calls on shared lists: one designer's calls do not affect what the other gets, and what one call appends. Definitions
// and theorems, with no code to run.
#![tactic(auto)]
