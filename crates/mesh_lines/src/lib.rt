// Lists as text, one line per point or primitive.
#![tactic(auto)]

ghost use Rattle.std.specs.Prelude.{◌+◌, ◌*◌, ◌≤◌, length};
ghost use Rattle.std.proofs.Math.Seq.{slice};
ghost use Rattle.buffer.specs.Over.{Wrote};
ghost use Rattle.decimal_text.specs.Lines.{line, rows};

use decimal_text::{put_ended, put_line3};

// Writes the words k, k + 1 and k + 2 as a line.
fn put_point(out: &mut [u8], at: usize, vertices: &[u32], k: usize) -> usize
    requires in_list { k + 3 ≤ length vertices.now }
    requires room { at + length (line (slice k (k + 3) vertices.now)) ≤ length out.old }
    ensures { Wrote out.old at (line (slice k (k + 3) vertices.now)) out.new result }
{
    put_line3(out, at, vertices[k], vertices[k + 1], vertices[k + 2])
}

// Writes `count` points, the first of which is number `from`.
pub fn put_points(out: &mut [u8], at: usize, vertices: &[u32], from: usize, count: usize) -> usize
    requires in_list { 3 * (from + count) ≤ length vertices.now }
    requires room { at + 33 * count ≤ length out.old }
    ensures wrote { Wrote out.old at (rows 3 vertices.now from count) out.new result }
    ensures upper_bound { result ≤ at + 33 * count }
{
    let mut w = at;
    for i in 0..count {
        w = put_point(out, w, vertices, 3 * (from + i));
    }
    w
}

// Writes `width` indices from index k on as a line.
fn put_primitive(out: &mut [u8], at: usize, indices: &[u16], width: usize, k: usize) -> usize
    requires in_list { (1 ≤ width) × (k + width ≤ length indices.now) }
    requires room { at + length (line (slice k (k + width) indices.now)) ≤ length out.old }
    ensures { Wrote out.old at (line (slice k (k + width) indices.now)) out.new result }
{
    let last = k + width - 1;
    let mut w = at;
    for j in k..last {
        w = put_ended(out, w, indices[j] as u32, b' ');
    }
    put_ended(out, w, indices[last] as u32, b'\n')
}

// Writes `count` primitives of `width` indices each, the first of which is number `from`.
pub fn put_primitives(
    out: &mut [u8],
    at: usize,
    indices: &[u16],
    width: usize,
    from: usize,
    count: usize,
) -> usize
    requires in_list { (1 ≤ width) × (width ≤ 3) × (width * (from + count) ≤ length indices.now) }
    requires room { at + 18 * count ≤ length out.old }
    ensures wrote { Wrote out.old at (rows width indices.now from count) out.new result }
    ensures upper_bound { result ≤ at + 18 * count }
{
    let mut w = at;
    for i in 0..count {
        w = put_primitive(out, w, indices, width, width * (from + i));
    }
    w
}
