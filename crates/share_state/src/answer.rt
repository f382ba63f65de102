// What starting and clearing refuse, and the result of clearing.
use crate::state::State;

// The quotas of both designers together exceed a list.
#[derive(Clone, Copy, Debug, PartialEq, Eq, Drop)]
pub struct QuotasTooLarge;

// The state can't occur, or the lists lent with it don't have the lengths of the start.
#[derive(Clone, Copy, Debug, PartialEq, Eq, Drop)]
pub struct BadState;

// Whether a part was cleared, and the state to pass on.
#[derive(Clone, Copy, Drop)]
pub struct ClearResult {
    pub answer: Result<(), BadState>,
    pub state: State,
}
