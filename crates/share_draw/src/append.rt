// Draws a patch into the unused words of a designer's part of a shared list.
ghost use Rattle.std.specs.Prelude.{◌≡◌, map, ℕ, ◌+◌, ◌*◌, ◌≤◌, ◌<◌, length, get_or};
ghost use Rattle.buffer.specs.Over.{over};
ghost use Rattle.measure.specs.Sizes.{points_of, indices_of};
ghost use Rattle.tessellate.specs.Draws.{point_words};
ghost use Rattle.share_draw.specs.Operations.{shifted_indices};
ghost use Rattle.share_draw.specs.Room.{FitsBetween, RoomFor, Appended};

use patch::kinds::Patch;
use patch::settings::Settings;
use share_state::state::{Designer, SharedList};

// Draws the points into the words from `from` to `to`.
fn write_points(patch: Patch, settings: Settings, vertices: &mut [u32], from: usize, to: usize)
    requires { FitsBetween settings patch (3 * points_of settings patch) from to vertices.old }
    ensures { vertices.new ≡ over vertices.old from (point_words settings patch) }
{
    // There is room, so this is not refused.
    let _ = tessellate::draw::draw_points(patch, settings, &mut vertices[from..to]);
}

// Adds `base` to every number.
fn shift(numbers: &mut [u16], base: u16)
    requires { (k : ℕ) → k < length numbers.old → base + get_or numbers.old k 0 < 65536 }
    ensures { numbers.new ≡ map (λ x. base + x) numbers.old }
{
    for number in numbers.iter_mut() {
        *number += base;
    }
}

// Draws the indices, `words` of them, each plus `base`, into the words from `from` to `to`.
fn write_indices(
    patch: Patch,
    settings: Settings,
    indices: &mut [u16],
    from: usize,
    to: usize,
    words: usize,
    base: u16,
)
    requires fits { FitsBetween settings patch (indices_of settings patch) from to indices.old }
    requires count { words ≡ indices_of settings patch }
    requires numbered { base + points_of settings patch ≤ 65535 }
    ensures { indices.new ≡ over indices.old from (shifted_indices base settings patch) }
{
    // There is room, so this is not refused.
    let _ = tessellate::draw::draw_indices(patch, settings, &mut indices[from..to]);
    let end = from + words;
    shift(&mut indices[from..end], base);
}

// Appends this many words of points to the words that a designer uses.
pub(crate) fn append_points(
    list: SharedList,
    designer: Designer,
    patch: Patch,
    settings: Settings,
    vertices: &mut [u32],
    words: usize,
) -> SharedList
    requires room { RoomFor settings patch (3 * points_of settings patch) designer list vertices.old }
    requires count { words ≡ 3 * points_of settings patch }
    ensures { Appended designer (point_words settings patch) list vertices.old vertices.new result }
{
    let start = list.part_start(designer);
    let share = list.share_of(designer);
    let used = share.used;
    write_points(patch, settings, vertices, start + used, start + share.quota);
    list.with_used(designer, used + words)
}

// Appends this many indices to those that a designer uses.
pub(crate) fn append_indices(
    list: SharedList,
    designer: Designer,
    patch: Patch,
    settings: Settings,
    indices: &mut [u16],
    words: usize,
    base: u16,
) -> SharedList
    requires room { RoomFor settings patch (indices_of settings patch) designer list indices.old }
    requires count { words ≡ indices_of settings patch }
    requires numbered { base + points_of settings patch ≤ 65535 }
    ensures { Appended designer (shifted_indices base settings patch) list indices.old indices.new result }
{
    let start = list.part_start(designer);
    let share = list.share_of(designer);
    let used = share.used;
    write_indices(
        patch,
        settings,
        indices,
        start + used,
        start + share.quota,
        words,
        base,
    );
    list.with_used(designer, used + words)
}
