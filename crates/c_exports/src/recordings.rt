// Replaying a recording: each call is that of `replay_exports`, with its contract.
ghost use Rattle.replay_exports.specs.Calls.{ReplayCalled};

#[unsafe(no_mangle)]
pub extern "C" fn yoktvarim_replay(bytes: &[u8], told: &mut [u64; 7]) -> u32
    ensures { ReplayCalled bytes.now told.new result }
{
    replay_exports::call::yoktvarim_replay(bytes, told)
}
