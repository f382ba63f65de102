// Reads job files: a header, then records of five or six setting bytes and six tessellation levels.
#![tactic(auto)]

pub mod cursor;
pub mod header;
pub mod next;
pub mod record;
