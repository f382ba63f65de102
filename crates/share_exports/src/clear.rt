// Clearing a designer's part.
ghost use Rattle.std.specs.Prelude.{length};
ghost use Rattle.share_exports.specs.Calls.{ClearCalled};

use share_words::words::{designer_of, state_in, words_of};

#[unsafe(no_mangle)]
pub extern "C" fn yoktvarim_share_clear(
    state: &mut [u64; 10],
    designer: u32,
    vertices: &[u32],
    indices: &[u16],
) -> u32
    ensures { ClearCalled designer (length vertices.now) (length indices.now) state.old state.new result }
{
    let shared = state_in(state);
    if !share_state::shared_list::accepts(shared, vertices.len(), indices.len()) {
        return 14;
    }
    if 1 < designer {
        return 15;
    }
    let result = share_state::clear::clear(shared, designer_of(designer), vertices, indices);
    let next = result.state;
    *state = words_of(next);
    0
}
