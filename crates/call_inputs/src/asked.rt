// A call's settings and patch, or why it is refused: a bad top level first, then an unknown setting.
ghost use Rattle.std.specs.Prelude.{◌≡◌};
ghost use Rattle.call_inputs.specs.Asked.{asked_in};

use crate::input::{patch_in, top_in};
use call_answers::reply::{Reply, bad_top, unknown_setting};
use job_fields::setting::{first_unknown, read_settings};
use patch::kinds::Patch;
use patch::settings::Settings;

// What a call asks for.
#[derive(Clone, Copy, Drop)]
pub struct Request {
    pub settings: Settings,
    pub patch: Patch,
}

pub fn read_call(settings: &[u8; 6], levels: &[f32; 6]) -> Result<Request, Reply>
    ensures { result ≡ asked_in settings.now levels.now }
{
    let top = top_in(settings);
    if !level::is_top(top) {
        return Err(bad_top());
    }
    let place = first_unknown(settings, 0);
    if place < 5 {
        return Err(unknown_setting(place));
    }
    Ok(Request {
        settings: read_settings(settings, 0, top),
        patch: patch_in(settings, levels),
    })
}
