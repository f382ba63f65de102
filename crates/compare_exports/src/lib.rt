// Comparing two meshes, for programs in C and Rust: include/yoktvarim.h declares it, and the crate in rust/ wraps it. A caller
// passes each mesh as point words and indices, a list of 64-bit words for the differences, and one word, always written, for
// their number. The answer is a number: 0 compared, 40 no room, 41 to 43 the left mesh is refused, 44 to 46 the right mesh is.
#![tactic(auto)]

pub mod meshes;
mod reply;
