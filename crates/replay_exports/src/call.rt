// The exported call.
ghost use Rattle.replay_exports.specs.Calls.{ReplayCalled};

use crate::words::{number_of, words_of};

#[unsafe(no_mangle)]
pub extern "C" fn yoktvarim_replay(bytes: &[u8], told: &mut [u64; 7]) -> u32
    ensures { ReplayCalled bytes.now told.new result }
{
    let answer = replay::recording::replay(bytes);
    *told = words_of(answer);
    number_of(answer)
}
