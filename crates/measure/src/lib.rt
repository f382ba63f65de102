// Measuring: how many points and indices drawing would write, and which levels are clamped. It needs no lists.
#![tactic(auto)]

ghost use Rattle.std.specs.Prelude.{◌≡◌};
ghost use Rattle.measure.specs.Sizes.{size_code, measure_verdict};

use crate::cut::{NotDrawn, cut_with};
use crate::size::Size;
use level_clamps::clamps_of;
use patch::kinds::Patch;
use patch::settings::Settings;
use patch_writer::count::{index_count, point_count};

pub mod cut;
pub mod size;

pub fn measure(patch: Patch, settings: Settings) -> Result<Size, NotDrawn>
    ensures { size_code result ≡ measure_verdict settings patch }
{
    let cut = cut_with(patch, settings)?;
    let points = point_count(cut);
    let indices = index_count(cut, settings.point_mode);
    let clamps = clamps_of(patch, settings.spacing, settings.top);
    Ok(Size {
        points,
        indices,
        clamps,
    })
}
