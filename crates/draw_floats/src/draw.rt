// Drawing with floats: tests all room first, then the two drawing operations write their lists, then each coordinate is written
// again as a float.
ghost use Rattle.draw_floats.specs.Draws.{DrewWithFloats};

use crate::one::one_of;
use crate::refusal::FloatsRefusal;
use crate::room::judge;
use coordinate::write_coordinates;
use measure::size::DrawnCounts;
use patch::kinds::Patch;
use patch::settings::Settings;
use tessellate::draw::{draw_indices, draw_points};

pub fn draw_with_floats(
    patch: Patch,
    settings: Settings,
    vertices: &mut [u32],
    indices: &mut [u16],
    floats: &mut [f32],
) -> Result<DrawnCounts, FloatsRefusal>
    ensures { DrewWithFloats settings patch (record { vertices = vertices.old; indices = indices.old; floats = floats.old })
        (record { vertices = vertices.new; indices = indices.new; floats = floats.new }) result }
{
    let counts = judge(patch, settings, vertices.len(), indices.len(), floats.len())?;
    // Both operations draw, as all room was tested above.
    let _points = draw_points(patch, settings, vertices);
    let _indices = draw_indices(patch, settings, indices);
    write_coordinates(
        floats,
        vertices,
        3 * (counts.points as usize),
        one_of(patch),
    );
    Ok(counts)
}
