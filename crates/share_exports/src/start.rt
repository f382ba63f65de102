// Starting: accepts the quotas of both designers, or refuses them together.
ghost use Rattle.std.specs.Prelude.{length};
ghost use Rattle.share_exports.specs.Calls.{StartCalled};

use share_state::answer::QuotasTooLarge;
use share_words::words::{quota_in, words_of};

#[unsafe(no_mangle)]
pub extern "C" fn yoktvarim_share_start(
    vertices: &[u32],
    indices: &[u16],
    quotas: &[u64; 4],
    state: &mut [u64; 10],
) -> u32
    ensures { StartCalled quotas.now (length vertices.now) (length indices.now) state.old state.new result }
{
    let first = quota_in(quotas, 0);
    let second = quota_in(quotas, 2);
    match share_state::start::start(vertices, indices, first, second) {
        Ok(begun) => {
            *state = words_of(begun);
            0
        }
        Err(QuotasTooLarge) => 12,
    }
}
