// Drawing with floats for programs in C and Rust: include/yoktvarim.h declares it, and the crate in rust/ wraps it. Settings,
// levels and lists are passed as in `draw_exports`. Counts are two words, always written: points and indices for answer 0, the place
// of the setting and 0 for answer 8, else 0 and 0. The answers are 0 drawn, 1 discarded, 3 no room for vertices, 4 no room for
// indices, 8 unknown setting, 9 no room for floats, 11 bad top; every answer but 0 leaves all three lists unchanged.
#![tactic(auto)]

ghost use Rattle.draw_floats.specs.Answers.{floats_code};
ghost use Rattle.call_answers.specs.Replies.{IsReply};
ghost use Rattle.float_exports.specs.Calls.{FloatsCalled};

use call_answers::reply::{Reply, bad_top, refusal, say_two, success};
use call_inputs::asked::read_call;
use draw_floats::draw::draw_with_floats;
use draw_floats::refusal::FloatsRefusal;
use measure::size::DrawnCounts;

// Kept: a function in place of `From`, since neither `FloatsRefusal` nor `Reply` is a type of this crate.
fn of_floats(answer: Result<DrawnCounts, FloatsRefusal>) -> Reply
    ensures { IsReply (floats_code answer) result }
{
    match answer {
        Ok(counts) => success(counts.points, counts.indices),
        Err(FloatsRefusal::Discarded) => refusal(1),
        Err(FloatsRefusal::NoRoomForVertices) => refusal(3),
        Err(FloatsRefusal::NoRoomForIndices) => refusal(4),
        Err(FloatsRefusal::NoRoomForFloats) => refusal(9),
        Err(FloatsRefusal::BadTop) => bad_top(),
    }
}

#[unsafe(no_mangle)]
pub extern "C" fn yoktvarim_draw_with_floats(
    settings: &[u8; 6],
    levels: &[f32; 6],
    vertices: &mut [u32],
    indices: &mut [u16],
    floats: &mut [f32],
    counts: &mut [u32; 2],
) -> u32
    ensures { FloatsCalled settings.now levels.now
        (record { vertices = vertices.old; indices = indices.old; floats = floats.old })
        (record { vertices = vertices.new; indices = indices.new; floats = floats.new }) counts.new result }
{
    match read_call(settings, levels) {
        Ok(request) => {
            let answer = draw_with_floats(
                request.patch,
                request.settings,
                vertices,
                indices,
                floats,
            );
            say_two(of_floats(answer), counts)
        }
        Err(reply) => say_two(reply, counts),
    }
}
