// Drawing into a designer's part: both points and indices are appended, or neither.
ghost use Rattle.share_draw.specs.Operations.{DidDraw};

use crate::answer::DrawResult;
use crate::append::{append_indices, append_points};
use patch::kinds::Patch;
use patch::settings::Settings;
use share_answers::verdict::verdict_of;
use share_state::state::{Designer, State};

pub fn draw(
    state: State,
    designer: Designer,
    patch: Patch,
    settings: Settings,
    vertices: &mut [u32],
    indices: &mut [u16],
) -> DrawResult
    ensures { DidDraw designer state settings patch vertices.old vertices.new indices.old indices.new result }
{
    let answer = verdict_of(
        state,
        designer,
        patch,
        settings,
        vertices.len(),
        indices.len(),
    );
    let Ok(counts) = answer else {
        return DrawResult { answer, state };
    };
    let vertex_list = state.vertices;
    let index_list = state.indices;
    let share = vertex_list.share_of(designer);
    let base = (share.used / 3) as u16;
    let next_vertices = append_points(
        vertex_list,
        designer,
        patch,
        settings,
        vertices,
        3 * (counts.points as usize),
    );
    let next_indices = append_indices(
        index_list,
        designer,
        patch,
        settings,
        indices,
        counts.indices as usize,
        base,
    );
    DrawResult {
        answer,
        state: State {
            vertices: next_vertices,
            indices: next_indices,
        },
    }
}
