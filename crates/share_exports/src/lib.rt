// Two designers on one vertex list and one index list, for programs in C and Rust: include/yoktvarim.h declares the calls, and
// rust/src/shared.rs wraps them. What a caller passes, as numbers in its own memory:
//   state     ten words of 64 bits: for the vertex list and then for the index list its length, the first designer's quota and used
//             words, and the second's. Starting fills them, drawing and clearing change them; every answer but 0 leaves them unchanged
//   quotas    four words: the first designer's quota of vertex words and of index words, and the second's
//   designer  0 or 1
// Settings, levels and counts are those of `draw_exports`. The answer is a number: 0 started, drawn or cleared, 1 discarded, 3 and 4 too
// little left of this quota, 8 unknown setting, 11 bad top, 12 quotas too large, 13 too many points, 14 bad state, 15 unknown designer.
#![tactic(auto)]

pub mod clear;
pub mod draw;
pub mod start;
