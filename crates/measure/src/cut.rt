// What the operations draw or measure: the segments into which a patch is cut, or why it is not cut. A bad top comes before
// a discarded patch.
ghost use Rattle.std.specs.Prelude.{◌≡◌};
ghost use Rattle.measure.specs.Cuts.{cut_of};

use patch::kinds::Patch;
use patch::settings::Settings;
use patch::subdivision::{Subdivision, is_discarded, subdivide};

// Why a patch is neither drawn nor measured.
#[derive(Clone, Copy, Debug, PartialEq, Eq, Drop)]
pub enum NotDrawn {
    BadTop,
    Discarded,
}

pub fn cut_with(patch: Patch, settings: Settings) -> Result<Subdivision, NotDrawn>
    ensures { result ≡ cut_of settings patch }
{
    let top = settings.top;
    if !level::is_top(top) {
        return Err(NotDrawn::BadTop);
    }
    let cut = subdivide(patch, settings.spacing, top);
    if is_discarded(cut) {
        return Err(NotDrawn::Discarded);
    }
    Ok(cut)
}
