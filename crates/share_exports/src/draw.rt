// Drawing into a designer's part.
ghost use Rattle.std.specs.Prelude.{length};
ghost use Rattle.share_state.specs.Answers.{accepted};
ghost use Rattle.share_answers.specs.Answers.{draw_verdict};
ghost use Rattle.share_exports.specs.Calls.{IsAdmitted, DrawCalled, ShareCalled};

use call_answers::reply::{Reply, bad_top, refusal, say_two, unknown_setting};
use patch::kinds::Patch;
use patch::settings::Settings;
use share_state::state::{Designer, State};
use share_words::reply::of_draw;
use share_words::words::{designer_of, state_in, words_of};

// Refuses a call for a reason that its patch does not matter for.
fn admit(state: State, designer: u32, settings: &[u8; 6], v: usize, i: usize) -> Result<(), Reply>
    ensures { IsAdmitted settings.now designer (accepted v i state) result }
{
    let top = call_inputs::input::top_in(settings);
    if !level::is_top(top) {
        return Err(bad_top());
    }
    if !share_state::shared_list::accepts(state, v, i) {
        return Err(refusal(14));
    }
    if 1 < designer {
        return Err(refusal(15));
    }
    let place = job_fields::setting::first_unknown(settings, 0);
    if place < 5 {
        return Err(unknown_setting(place));
    }
    Ok(())
}

// Draws for a known designer, with known settings.
fn draw_known(
    words: &mut [u64; 10],
    state: State,
    designer: Designer,
    patch: Patch,
    settings: Settings,
    vertices: &mut [u32],
    indices: &mut [u16],
    counts: &mut [u32; 2],
) -> u32
    ensures { ShareCalled (draw_verdict designer state settings patch (length vertices.old) (length indices.old)) designer state
        settings patch (record { words = words.old; vertices = vertices.old; indices = indices.old })
        (record { words = words.new; vertices = vertices.new; indices = indices.new }) counts.new result }
{
    let result = share_draw::draw::draw(state, designer, patch, settings, vertices, indices);
    let answer = result.answer;
    if answer.is_ok() {
        *words = words_of(result.state);
    }
    say_two(of_draw(answer), counts)
}

#[unsafe(no_mangle)]
pub extern "C" fn yoktvarim_share_draw(
    state: &mut [u64; 10],
    designer: u32,
    settings: &[u8; 6],
    levels: &[f32; 6],
    vertices: &mut [u32],
    indices: &mut [u16],
    counts: &mut [u32; 2],
) -> u32
    ensures { DrawCalled settings.now levels.now designer
        (record { words = state.old; vertices = vertices.old; indices = indices.old })
        (record { words = state.new; vertices = vertices.new; indices = indices.new }) counts.new result }
{
    let shared = state_in(state);
    if let Err(reply) = admit(shared, designer, settings, vertices.len(), indices.len()) {
        return say_two(reply, counts);
    }
    let top = call_inputs::input::top_in(settings);
    draw_known(
        state,
        shared,
        designer_of(designer),
        call_inputs::input::patch_in(settings, levels),
        job_fields::setting::read_settings(settings, 0, top),
        vertices,
        indices,
        counts,
    )
}
