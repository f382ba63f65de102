// One list that two designers share.
ghost use Rattle.std.specs.Prelude.{◌≡◌, ◌+◌, leb};
ghost use Rattle.share_state.specs.SharedList.{sound, whole_points};
ghost use Rattle.share_state.specs.Answers.{accepted};

use crate::state::{SharedList, State};

// Whether two quotas fit into a list; their sum may exceed the largest number.
pub(crate) fn quotas_fit(length: usize, first: usize, second: usize) -> bool
    ensures { result ≡ leb (first + second) length }
{
    first <= length && second <= length - first
}

// Whether the quotas fit into the list, and neither share uses more than its quota.
#[tactic(auto, unfolding(crate::specs::SharedList::sound))]
fn is_sound(list: SharedList) -> bool
    ensures { result ≡ sound list }
{
    let first = list.first;
    let second = list.second;
    quotas_fit(list.length, first.quota, second.quota)
        && first.used <= first.quota
        && second.used <= second.quota
}

// Whether both designers use whole points.
#[tactic(auto, unfolding(crate::specs::SharedList::whole_points))]
fn is_whole(list: SharedList) -> bool
    ensures { result ≡ whole_points list }
{
    let first = list.first;
    let second = list.second;
    first.used % 3 == 0 && second.used % 3 == 0
}

// Whether the state can occur, and the lists lent with it have the lengths of the start.
#[tactic(auto, unfolding(crate::specs::Answers::lent, crate::specs::Answers::sound_state))]
pub fn accepts(state: State, vertices: usize, indices: usize) -> bool
    ensures { result ≡ accepted vertices indices state }
{
    let vertex_list = state.vertices;
    let index_list = state.indices;
    vertices == vertex_list.length
        && indices == index_list.length
        && is_sound(vertex_list)
        && is_sound(index_list)
        && is_whole(vertex_list)
}
