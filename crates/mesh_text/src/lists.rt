// The text of a drawn patch: the counts, a line per point, a line per primitive.
ghost use Rattle.std.specs.Prelude.{◌+◌, ◌*◌, ◌/◌, ◌≤◌, length};
ghost use Rattle.buffer.specs.Over.{Wrote};
ghost use Rattle.mesh_text.specs.Lists.{HoldsMesh, list_text};

// Writes the first `points` points of a vertex list, and the first `words` indices of an index list, `width` per primitive.
pub fn put_mesh(
    out: &mut [u8],
    at: usize,
    vertices: &[u32],
    indices: &[u16],
    width: usize,
    points: u32,
    words: u32,
) -> usize
    requires holds_mesh { HoldsMesh width (length vertices.now) (length indices.now) points words }
    requires width_in_bounds { at + (28 + 33 * points + 18 * (words / width)) ≤ length out.old }
    ensures { Wrote out.old at (list_text width vertices.now indices.now points words) out.new result }
{
    let a = decimal_text::put_drawn(out, at, points, words);
    let b = mesh_lines::put_points(out, a, vertices, 0, points as usize);
    mesh_lines::put_primitives(out, b, indices, width, 0, words as usize / width)
}
