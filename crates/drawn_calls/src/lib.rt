// What the calls from C drew: it meets the third demand, any two patches meet at their seam, and the call that checks a mesh accepts it.
// Definitions and theorems, with no code to run.
#![tactic(auto)]
