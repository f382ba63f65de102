// The state and the quotas as words in the caller's memory.
ghost use Rattle.std.specs.Prelude.{◌≡◌, ◌≤◌};
ghost use Rattle.share_words.specs.Words.{list_in, state_in, quota_in, state_words, designer_of};

use share_state::state::{Designer, Quota, Share, SharedList, State};

// Returns a shared list from its five words.
fn list_in(words: &[u64; 10], at: usize) -> SharedList
    requires { at ≤ 5 }
    ensures { result ≡ list_in words.now at }
{
    SharedList {
        length: words[at] as usize,
        first: Share {
            quota: words[at + 1] as usize,
            used: words[at + 2] as usize,
        },
        second: Share {
            quota: words[at + 3] as usize,
            used: words[at + 4] as usize,
        },
    }
}

pub fn state_in(words: &[u64; 10]) -> State
    ensures { result ≡ state_in words.now }
{
    State {
        vertices: list_in(words, 0),
        indices: list_in(words, 5),
    }
}

pub fn words_of(state: State) -> [u64; 10]
    ensures { result ≡ state_words state }
{
    let vertices = state.vertices;
    let indices = state.indices;
    [
        vertices.length as u64,
        vertices.first.quota as u64,
        vertices.first.used as u64,
        vertices.second.quota as u64,
        vertices.second.used as u64,
        indices.length as u64,
        indices.first.quota as u64,
        indices.first.used as u64,
        indices.second.quota as u64,
        indices.second.used as u64,
    ]
}

// Returns one designer's quota.
pub fn quota_in(quotas: &[u64; 4], at: usize) -> Quota
    requires { at ≤ 2 }
    ensures { result ≡ quota_in quotas.now at }
{
    Quota {
        vertices: quotas[at] as usize,
        indices: quotas[at + 1] as usize,
    }
}

pub fn designer_of(number: u32) -> Designer
    ensures { result ≡ designer_of number }
{
    match number {
        0 => Designer::First,
        _ => Designer::Second,
    }
}
