// Drawing, in two operations: one writes the points of a patch to the front of the vertex list, one its indices to the front of the
// index list. Each writes the whole of it and returns how many they are, or refuses, whatever the other list is.
ghost use Rattle.tessellate.specs.Draws.{DrewPoints, DrewIndices};

use crate::refusal::DrawRefusal;
use measure::cut::cut_with;
use patch::kinds::Patch;
use patch::settings::{Settings, turns_positive};
use patch_writer::connect::write_indices;
use patch_writer::count::{index_count, point_count};
use patch_writer::place::write_points;

pub fn draw_points(
    patch: Patch,
    settings: Settings,
    vertices: &mut [u32],
) -> Result<u32, DrawRefusal>
    ensures { DrewPoints settings patch vertices.old vertices.new result }
{
    // Kept: patch and settings are two parameters, as `DrewPoints` and the definitions under it are stated over the two.
    let cut = cut_with(patch, settings)?;
    let points = point_count(cut);
    if vertices.len() < 3 * (points as usize) {
        return Err(DrawRefusal::NoRoomForVertices);
    }
    write_points(vertices, cut);
    Ok(points)
}

pub fn draw_indices(
    patch: Patch,
    settings: Settings,
    indices: &mut [u16],
) -> Result<u32, DrawRefusal>
    ensures { DrewIndices settings patch indices.old indices.new result }
{
    let cut = cut_with(patch, settings)?;
    let words = index_count(cut, settings.point_mode);
    if indices.len() < words as usize {
        return Err(DrawRefusal::NoRoomForIndices);
    }
    let positive = turns_positive(settings.order, settings.origin);
    write_indices(indices, cut, settings.point_mode, positive);
    Ok(words)
}
