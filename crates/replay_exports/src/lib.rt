// The call that replays a recording, for programs in C and Rust: include/yoktvarim.h declares it, and rust/src/replay.rs wraps it.
//   bytes  the whole recording
//   told   seven words, always written: for 0 the number of entries; for 60 the entry that differs, then answer, points and
//          indices as recorded and as replayed; all other words are 0
// The answer is a number: 0 all agree, 5 not a recording, 6 unknown version, 7 cut entry, 60 an entry differs.
#![tactic(auto)]

pub mod call;
mod words;
