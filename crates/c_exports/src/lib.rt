// The static library: every call of include/yoktvarim.h, under its own name. A crate is a library for other crates or a static library,
// and not both, so each call here is that of a crate `*_exports`, which theorems speak of, and says the same.
#![tactic(auto)]

mod checking;
mod comparing;
mod drawing;
mod floats;
mod jobs;
mod recordings;
mod sharing;
