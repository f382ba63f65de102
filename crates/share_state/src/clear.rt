// Clearing a designer's part: its room is free again, and its words stay until they are overwritten.
ghost use Rattle.std.specs.Prelude.{length};
ghost use Rattle.share_state.specs.Operations.{DidClear};

use crate::answer::{BadState, ClearResult};
use crate::shared_list::accepts;
use crate::state::{Designer, State};

#[tactic(auto, unfolding(crate::specs::Answers::clear_verdict))]
pub fn clear(state: State, designer: Designer, vertices: &[u32], indices: &[u16]) -> ClearResult
    ensures { DidClear designer state (length vertices.now) (length indices.now) result }
{
    if !accepts(state, vertices.len(), indices.len()) {
        return ClearResult {
            answer: Err(BadState),
            state,
        };
    }
    let vertex_list = state.vertices;
    let index_list = state.indices;
    ClearResult {
        answer: Ok(()),
        state: State {
            vertices: vertex_list.with_used(designer, 0),
            indices: index_list.with_used(designer, 0),
        },
    }
}
