// Measuring: how many points and indices drawing would write, and which levels were clamped.
ghost use Rattle.draw_exports.specs.Calls.{MeasureCalled};

use call_answers::clamps::{say_clamps, say_nothing};
use call_answers::reply::{of_size, say_two};
use call_inputs::asked::read_call;
use measure::measure;

#[unsafe(no_mangle)]
pub extern "C" fn yoktvarim_measure(
    settings: &[u8; 6],
    levels: &[f32; 6],
    counts: &mut [u32; 2],
    clamps: &mut [u8; 6],
) -> u32
    ensures { MeasureCalled settings.now levels.now counts.new clamps.new result }
{
    match read_call(settings, levels) {
        Ok(request) => {
            let size = measure(request.patch, request.settings);
            say_clamps(size, clamps);
            say_two(of_size(size), counts)
        }
        Err(reply) => {
            say_nothing(clamps);
            say_two(reply, counts)
        }
    }
}
