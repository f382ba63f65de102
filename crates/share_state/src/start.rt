// Starting: accepts the quotas of both designers, or refuses them together.
ghost use Rattle.std.specs.Prelude.{length, ◌≡◌};
ghost use Rattle.share_state.specs.Operations.{DidStart, unused_list};

use crate::answer::QuotasTooLarge;
use crate::shared_list::quotas_fit;
use crate::state::{Quota, Share, SharedList, State};

// Returns a list of which no words are used.
fn unused(length: usize, first: usize, second: usize) -> SharedList
    ensures { result ≡ unused_list length first second }
{
    SharedList {
        length,
        first: Share {
            quota: first,
            used: 0,
        },
        second: Share {
            quota: second,
            used: 0,
        },
    }
}

#[tactic(auto, unfolding(crate::specs::Answers::quotas_fit))]
pub fn start(
    vertices: &[u32],
    indices: &[u16],
    first: Quota,
    second: Quota,
) -> Result<State, QuotasTooLarge>
    ensures { DidStart (length vertices.now) (length indices.now) first second result }
{
    let v = vertices.len();
    let i = indices.len();
    if !quotas_fit(v, first.vertices, second.vertices) {
        return Err(QuotasTooLarge);
    }
    if !quotas_fit(i, first.indices, second.indices) {
        return Err(QuotasTooLarge);
    }
    Ok(State {
        vertices: unused(v, first.vertices, second.vertices),
        indices: unused(i, first.indices, second.indices),
    })
}
