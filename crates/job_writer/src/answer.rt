// Why a writer refuses. The list is then unchanged.

// The list is too short.
#[derive(Clone, Copy, Debug, PartialEq, Eq, Drop)]
pub struct NoRoom;

#[derive(Clone, Copy, Debug, PartialEq, Eq, Drop)]
pub enum RecordRefusal {
    NoRoom,
    // The version cannot hold the top level.
    BadTop,
}
