// Checking a mesh, for programs in C and Rust: include/yoktvarim.h declares it. Settings and levels are those of `draw_exports`. The
// points are three words each, the triangles three indices each; the lists may have any length and content, and are not changed.
//   places    two words, always written: the places of the answer, or 0
// The answer is a number: 0 accepted, 8 unknown setting, 11 bad top, and 20 to 30 the faults in the order of finding.
#![tactic(auto)]

pub mod check;
