// The result of drawing into a designer's part.
use measure::size::DrawnCounts;
use share_answers::answer::ShareRefusal;
use share_state::state::State;

// How many points and indices were appended to the designer's part, or why nothing was; and the state to pass on.
#[derive(Clone, Copy, Drop)]
pub struct DrawResult {
    pub answer: Result<DrawnCounts, ShareRefusal>,
    pub state: State,
}
