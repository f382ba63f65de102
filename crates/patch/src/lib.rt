// Patches, their settings, and the number of segments of each edge.
#![tactic(auto)]

pub mod kinds;
pub mod settings;
pub mod subdivision;
