// Checking a mesh: each call is that of `check_exports`, with its contract.
ghost use Rattle.call_answers.specs.Replies.{Says, two_words};
ghost use Rattle.check_exports.specs.Founds.{check_says};

#[unsafe(no_mangle)]
pub extern "C" fn yoktvarim_check_mesh(
    settings: &[u8; 6],
    levels: &[f32; 6],
    points: &[u32],
    indices: &[u16],
    places: &mut [u64; 2],
) -> u32
    ensures { Says two_words (check_says settings.now levels.now points.now indices.now) places.new result }
{
    check_exports::check::yoktvarim_check_mesh(settings, levels, points, indices, places)
}
