// Measuring and drawing for programs in C and Rust: include/yoktvarim.h declares the calls, and the crate in rust/ wraps them. One call
// measures a patch, one draws its points and one its indices. What a caller passes, as numbers in its own memory:
//   settings  six bytes: kind, spacing, vertex order, domain origin, point mode and top level, numbered as in a job file
//   levels    six tessellation levels: outer one to four, inner one and two; those that do not count for the kind are ignored
//   clamps    six bytes, in the order of the levels, always written by measuring: for answer 0, 1 below the range, 2 inside, 3 above;
//             0 for a level that does not count for the kind, and for every level with any other answer
//   counts    for measuring, two words, always written: for answer 0 the points and the indices
//   count     for drawing, one word, always written: for answer 0 the points or the indices
// For answer 8 the first word is the place of the setting; every other word is 0.
// The answer is a number: 0 drawn (or measured), 1 discarded, 3 no room for vertices, 4 no room for indices,
// 8 unknown setting, 11 bad top. A bad top comes before all else. Every answer but 0 leaves the list unchanged.
#![tactic(auto)]

pub mod draw;
pub mod measuring;
