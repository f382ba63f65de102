// Drawing, in two calls: the points of a patch and its indices, each written to the front of its own list.
ghost use Rattle.std.specs.Prelude.{length};
ghost use Rattle.tessellate.specs.Answers.{points_verdict, indices_verdict};
ghost use Rattle.tessellate.specs.Draws.{point_words, connection_words};
ghost use Rattle.draw_exports.specs.Calls.{ListCalled, PointsCalled, IndicesCalled};

use call_answers::reply::{of_drawn, say_one};
use call_inputs::asked::read_call;
use patch::kinds::Patch;
use patch::settings::Settings;
use tessellate::draw::{draw_indices, draw_points};

fn points_of(patch: Patch, settings: Settings, vertices: &mut [u32], count: &mut [u32; 1]) -> u32
    ensures { ListCalled (points_verdict settings patch (length vertices.old)) (point_words settings patch) vertices.old vertices.new count.new result }
{
    let points = draw_points(patch, settings, vertices);
    say_one(of_drawn(points), count)
}

fn indices_of(patch: Patch, settings: Settings, indices: &mut [u16], count: &mut [u32; 1]) -> u32
    ensures { ListCalled (indices_verdict settings patch (length indices.old)) (connection_words settings patch) indices.old indices.new count.new result }
{
    let words = draw_indices(patch, settings, indices);
    say_one(of_drawn(words), count)
}

#[unsafe(no_mangle)]
pub extern "C" fn yoktvarim_draw_points(
    settings: &[u8; 6],
    levels: &[f32; 6],
    vertices: &mut [u32],
    count: &mut [u32; 1],
) -> u32
    ensures { PointsCalled settings.now levels.now vertices.old vertices.new count.new result }
{
    match read_call(settings, levels) {
        Ok(request) => points_of(request.patch, request.settings, vertices, count),
        Err(reply) => say_one(reply, count),
    }
}

#[unsafe(no_mangle)]
pub extern "C" fn yoktvarim_draw_indices(
    settings: &[u8; 6],
    levels: &[f32; 6],
    indices: &mut [u16],
    count: &mut [u32; 1],
) -> u32
    ensures { IndicesCalled settings.now levels.now indices.old indices.new count.new result }
{
    match read_call(settings, levels) {
        Ok(request) => indices_of(request.patch, request.settings, indices, count),
        Err(reply) => say_one(reply, count),
    }
}
