// The check of any mesh for a patch, as a call.
ghost use Rattle.call_answers.specs.Replies.{Says, two_words};
ghost use Rattle.check_exports.specs.Founds.{check_says};

use call_inputs::asked::read_call;
use check_words::found::{PlacedReply, say};

#[unsafe(no_mangle)]
pub extern "C" fn yoktvarim_check_mesh(
    settings: &[u8; 6],
    levels: &[f32; 6],
    points: &[u32],
    indices: &[u16],
    places: &mut [u64; 2],
) -> u32
    ensures { Says two_words (check_says settings.now levels.now points.now indices.now) places.new result }
{
    match read_call(settings, levels) {
        Err(refusal) => say(PlacedReply::from(refusal), places),
        Ok(request) => {
            let verdict = check_mesh::check::check_mesh(
                request.patch,
                request.settings,
                points,
                indices,
            );
            say(PlacedReply::from(verdict), places)
        }
    }
}
