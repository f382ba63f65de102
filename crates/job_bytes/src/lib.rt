// The bytes of a job file: numbers, settings, top levels, levels and whole records.
#![tactic(auto)]

pub mod level_bits;
pub mod put;
pub mod record_bytes;
pub mod setting_bytes;
pub mod top_byte;
