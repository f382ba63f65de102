// The answer to drawing, found before anything is written.
ghost use Rattle.std.specs.Prelude.{◌≡◌, ◌-◌, ◌/◌, ◌≤◌, true};
ghost use Rattle.level.specs.Top.{is_top};
ghost use Rattle.share_state.specs.SharedList.{left};
ghost use Rattle.share_state.specs.Answers.{sound_state};
ghost use Rattle.share_answers.specs.Answers.{draw_code, points_held, room_verdict, part_verdict, draw_verdict};

use crate::answer::ShareRefusal;
use measure::size::DrawnCounts;
use patch::kinds::Patch;
use patch::settings::Settings;
use share_state::shared_list::accepts;
use share_state::state::{Designer, Share, State};

// The answer for these further points and indices, by the room in a part.
#[tactic(auto, unfolding(crate::specs::Answers::room_verdict))]
fn room(vertices: Share, indices: Share, counts: DrawnCounts) -> Result<DrawnCounts, ShareRefusal>
    requires vertices_within { vertices.used ≤ vertices.quota }
    requires indices_within { indices.used ≤ indices.quota }
    ensures { draw_code result ≡ room_verdict (vertices.used / 3) (vertices.quota - vertices.used) (indices.quota - indices.used)
        counts.points counts.indices }
{
    if 65535 < vertices.used / 3 + (counts.points as usize) {
        return Err(ShareRefusal::TooManyPoints);
    }
    if vertices.quota - vertices.used < 3 * (counts.points as usize) {
        return Err(ShareRefusal::NoRoomForVertices);
    }
    if indices.quota - indices.used < counts.indices as usize {
        return Err(ShareRefusal::NoRoomForIndices);
    }
    Ok(counts)
}

// The answer of a designer's part for a patch.
fn part_verdict(
    state: State,
    designer: Designer,
    patch: Patch,
    settings: Settings,
) -> Result<DrawnCounts, ShareRefusal>
    requires good_top { is_top settings.top ≡ true }
    requires good_state { sound_state state ≡ true }
    ensures { draw_code result ≡ part_verdict settings patch (points_held designer state) (left designer state.vertices) (left designer state.indices) }
{
    let vertex_list = state.vertices;
    let index_list = state.indices;
    let size = measure::measure(patch, settings)?;
    let counts = DrawnCounts {
        points: size.points,
        indices: size.indices,
    };
    room(
        vertex_list.share_of(designer),
        index_list.share_of(designer),
        counts,
    )
}

#[tactic(auto, unfolding(crate::specs::Answers::share_verdict))]
pub fn verdict_of(
    state: State,
    designer: Designer,
    patch: Patch,
    settings: Settings,
    v: usize,
    i: usize,
) -> Result<DrawnCounts, ShareRefusal>
    ensures { draw_code result ≡ draw_verdict designer state settings patch v i }
{
    let top = settings.top;
    if !level::is_top(top) {
        return Err(ShareRefusal::BadTop);
    }
    if !accepts(state, v, i) {
        return Err(ShareRefusal::BadState);
    }
    part_verdict(state, designer, patch, settings)
}
