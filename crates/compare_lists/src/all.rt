// All differences between two meshes: how many there are, and their words.
ghost use Rattle.std.specs.Prelude.{◌≡◌, ◌≤◌, length};
ghost use Rattle.std.specs.Option.{ForSome};
ghost use Rattle.buffer.specs.Over.{Wrote};
ghost use Rattle.compare_differences.specs.Meshes.{read_mesh};
ghost use Rattle.compare_differences.specs.Differences.{differences};
ghost use Rattle.compare_table_flags.specs.Flags.{MeshFlags};
ghost use Rattle.compare_lists.specs.Words.{all_point_difference_words, difference_words};

use crate::list::{count_faces, count_points, write_faces, write_points};
use crate::side::Side;
use compare_differences::mesh::SoundMesh;
use compare_table_flags::flags::Flags;

// Returns the number of differences.
pub fn count_differences(
    left: SoundMesh,
    right: SoundMesh,
    left_flags: Option<Flags>,
    right_flags: Option<Flags>,
) -> usize
    requires left_told { ForSome left_flags (λ f. MeshFlags left.points.now left.indices.now right.points.now right.indices.now
        f.points.now f.faces.now) }
    requires right_told { ForSome right_flags (λ f. MeshFlags right.points.now right.indices.now left.points.now left.indices.now
        f.points.now f.faces.now) }
    ensures { result ≡ length (differences (read_mesh left.entry.points.now left.entry.indices.now)
        (read_mesh right.entry.points.now right.entry.indices.now)) }
{
    let on_left = Side {
        mesh: left,
        other: right,
        flags: left_flags,
    };
    let on_right = Side {
        mesh: right,
        other: left,
        flags: right_flags,
    };
    let n0 = count_points(on_left);
    let n1 = count_points(on_right);
    let n2 = count_faces(on_left);
    let n3 = count_faces(on_right);
    n0 + n1 + n2 + n3
}

// Writes the words of the points, the left side first.
fn write_all_points(on_left: Side, on_right: Side, out: &mut [u64]) -> usize
    requires left_points { on_right.other.points.now ≡ on_left.mesh.points.now }
    requires right_points { on_right.mesh.points.now ≡ on_left.other.points.now }
    requires room { length (all_point_difference_words on_left.mesh.points.now on_left.other.points.now) ≤ length out.old }
    ensures { Wrote out.old 0 (all_point_difference_words on_left.entry.mesh.points.now on_left.entry.other.points.now) out.new result }
{
    let w = write_points(out, 0, 0, on_left);
    write_points(out, w, 1, on_right)
}

// Writes the words of all differences to the front.
pub fn write_differences(
    out: &mut [u64],
    left: SoundMesh,
    right: SoundMesh,
    left_flags: Option<Flags>,
    right_flags: Option<Flags>,
) -> usize
    requires left_told { ForSome left_flags (λ f. MeshFlags left.points.now left.indices.now right.points.now right.indices.now
        f.points.now f.faces.now) }
    requires right_told { ForSome right_flags (λ f. MeshFlags right.points.now right.indices.now left.points.now left.indices.now
        f.points.now f.faces.now) }
    requires room { length (difference_words left.points.now left.indices.now right.points.now right.indices.now) ≤ length out.old }
    ensures { Wrote out.old 0 (difference_words left.entry.points.now left.entry.indices.now right.entry.points.now right.entry.indices.now)
        out.new result }
{
    let on_left = Side {
        mesh: left,
        other: right,
        flags: left_flags,
    };
    let on_right = Side {
        mesh: right,
        other: left,
        flags: right_flags,
    };
    let w = write_all_points(on_left, on_right, out);
    let w = write_faces(out, w, 0, on_left);
    write_faces(out, w, 1, on_right)
}
