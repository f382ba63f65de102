// Requests: what a call asks for. A caller passes six setting bytes and six levels; this crate turns them into settings and a
// patch, or into the refusal that every call answers instead of its operation.
#![tactic(auto)]

pub mod asked;
pub mod input;
