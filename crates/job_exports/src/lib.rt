// Job files for programs in C and Rust: include/yoktvarim.h declares these operations, and the crate in rust/ wraps them. Two
// write a header and a record to the front of the caller's list, two read them. What a caller passes:
//   version   its number: 1 or 2
//   settings  six bytes: kind, spacing, vertex order, domain origin, point mode and top level, which is 64 in version 1
//   patterns  the bits of six tessellation levels: four outer, two inner; a NaN keeps its own bits
//   count     for writing, one word, always written: for answer 0 the bytes written, for 8 the place of the setting
// Reading always writes the version; the settings and the patterns, which are 0 unless a record was read; where to read on
// (`next`); and the place of an unknown setting. A cursor at the end stays there, and every other answer moves it.
// The answer is a number: 0 written or read, 5 not a job, 6 unknown version, 7 cut record, 8 unknown setting, 10 no room, 11
// bad top, and 255 for the end, which is not a refusal.
#![tactic(auto)]

pub mod read;
pub mod reply;
pub mod write;
