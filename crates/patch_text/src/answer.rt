// The text of the answer for one patch.
ghost use Rattle.std.specs.Prelude.{◌≡◌, ◌+◌, ◌≤◌, length, IfOk, IfErr};
ghost use Rattle.buffer.specs.Over.{Wrote};
ghost use Rattle.patch_text.specs.Answers.{Printed, refusal_text, record_text};
ghost use Rattle.patch_text.specs.Room.{room, FullSize};

use decimal_text::{put_discarded, put_refused};
use measure::size::DrawnCounts;
use mesh_text::lists::put_mesh;
use mesh_text::width::width_of;
use patch::kinds::Patch;
use patch::settings::Settings;
use tessellate::draw::{draw_indices, draw_points};
use tessellate::refusal::DrawRefusal;

// Draws the points and the indices of a patch into two full-size lists.
fn draw_both(
    patch: Patch,
    settings: Settings,
    vertices: &mut [u32],
    indices: &mut [u16],
) -> Result<DrawnCounts, DrawRefusal>
    requires { FullSize (length vertices.old) (length indices.old) }
    ensures drawn { IfOk result (λ counts. Printed settings patch counts.points counts.indices vertices.new indices.new) }
    ensures refused { IfErr result (λ refusal. record_text settings patch ≡ refusal_text refusal) }
{
    let points = draw_points(patch, settings, vertices)?;
    let words = draw_indices(patch, settings, indices)?;
    Ok(DrawnCounts {
        points,
        indices: words,
    })
}

fn put_refusal(out: &mut [u8], at: usize, refusal: DrawRefusal) -> usize
    requires { at + 19 ≤ length out.old }
    ensures { Wrote out.old at (refusal_text refusal) out.new result }
{
    match refusal {
        DrawRefusal::Discarded => put_discarded(out, at),
        DrawRefusal::NoRoomForVertices => put_refused(out, at, 3),
        DrawRefusal::NoRoomForIndices => put_refused(out, at, 4),
        DrawRefusal::BadTop => put_refused(out, at, 11),
    }
}

// Draws a patch into two full-size lists, and writes the text of the answer.
pub fn put_patch(
    out: &mut [u8],
    at: usize,
    patch: Patch,
    settings: Settings,
    vertices: &mut [u32],
    indices: &mut [u16],
) -> usize
    requires full_size { FullSize (length vertices.old) (length indices.old) }
    requires room_for_text { at + room ≤ length out.old }
    ensures { Wrote out.old at (record_text settings patch) out.new result }
{
    match draw_both(patch, settings, vertices, indices) {
        Ok(counts) => {
            let width = width_of(patch, settings.point_mode);
            put_mesh(
                out,
                at,
                vertices,
                indices,
                width,
                counts.points,
                counts.indices,
            )
        }
        Err(refusal) => put_refusal(out, at, refusal),
    }
}
