// What measuring and drawing count.
use level_clamps::Clamps;

// How many points and indices a patch has, and where each level that counts lies.
#[derive(Clone, Copy, Drop)]
pub struct Size {
    pub points: u32,
    pub indices: u32,
    pub clamps: Clamps,
}

// How many points and indices were written, or would be.
#[derive(Clone, Copy, Debug, PartialEq, Eq, Drop)]
pub struct DrawnCounts {
    pub points: u32,
    pub indices: u32,
}
