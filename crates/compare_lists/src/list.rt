// The differences of one kind on one side: how many there are, and their words.
ghost use Rattle.std.specs.Prelude.{◌≡◌, ◌+◌, ◌≤◌, length};
ghost use Rattle.buffer.specs.Over.{Wrote};
ghost use Rattle.check_searches.specs.Points.{same_point};
ghost use Rattle.compare_differences.specs.Lacking.{passing, lacking};
ghost use Rattle.compare_differences.specs.Meshes.{point_row, face_row, same_face};
ghost use Rattle.compare_table_flags.specs.Flags.{is_set};
ghost use Rattle.compare_differences.specs.Differences.{words_if};
ghost use Rattle.compare_lists.specs.Words.{point_difference_words, face_difference_words};

use crate::ask::{lacks_face, lacks_point};
use crate::side::Side;

// Returns how many of the first `count` flags are set.
fn count_set(flags: &[bool], count: usize) -> usize
    requires { count ≤ length flags.now }
    ensures { result ≡ length (passing (is_set flags.now) count) }
{
    let mut n = 0;
    for k in 0..count {
        n += usize::from(flags[k]);
    }
    n
}

pub(crate) fn count_points(side: Side) -> usize
    ensures { result ≡ length (lacking same_point (point_row side.entry.mesh.points.now) (point_row side.entry.other.points.now)) }
{
    let count = side.mesh.points.len() / 3;
    if let Some(flags) = side.flags {
        return count_set(flags.points, count);
    }
    let mut n = 0;
    for k in 0..count {
        n += usize::from(lacks_point(&side, k));
    }
    n
}

pub(crate) fn count_faces(side: Side) -> usize
    ensures { result ≡ length (lacking same_face (face_row side.entry.mesh.points.now side.entry.mesh.indices.now)
        (face_row side.entry.other.points.now side.entry.other.indices.now)) }
{
    let count = side.mesh.indices.len() / 3;
    if let Some(flags) = side.flags {
        return count_set(flags.faces, count);
    }
    let mut n = 0;
    for k in 0..count {
        n += usize::from(lacks_face(&side, k));
    }
    n
}

// Writes the three words of a difference if `is` is true, else nothing.
fn put_if(out: &mut [u64], at: usize, is: bool, kind: u64, side: u64, number: usize) -> usize
    requires { at + length (words_if kind side is number) ≤ length out.old }
    ensures { Wrote out.old at (words_if kind side is number) out.new result }
{
    if is {
        buffer::put3(out, at, kind, side, number as u64)
    } else {
        at
    }
}

// Writes the words of the points; `number` is the number of the side.
pub(crate) fn write_points(out: &mut [u64], at: usize, number: u64, side: Side) -> usize
    requires { at + length (point_difference_words number side.mesh.points.now side.other.points.now) ≤ length out.old }
    ensures { Wrote out.old at (point_difference_words number side.entry.mesh.points.now side.entry.other.points.now) out.new result }
{
    let mut to = at;
    for k in 0..side.mesh.points.len() / 3 {
        to = put_if(out, to, lacks_point(&side, k), 0, number, k);
    }
    to
}

// The same for the triangles.
pub(crate) fn write_faces(out: &mut [u64], at: usize, number: u64, side: Side) -> usize
    requires { at + length (face_difference_words number side.mesh.points.now side.mesh.indices.now side.other.points.now side.other.indices.now)
        ≤ length out.old }
    ensures { Wrote out.old at (face_difference_words number side.entry.mesh.points.now side.entry.mesh.indices.now
        side.entry.other.points.now side.entry.other.indices.now) out.new result }
{
    let mut to = at;
    for k in 0..side.mesh.indices.len() / 3 {
        to = put_if(out, to, lacks_face(&side, k), 1, number, k);
    }
    to
}
