// Prints samples of every kind of line: the whole output for one record, numbers of one to ten digits, and the other answers.
#![tactic(auto)]

ghost use Rattle.std.specs.Prelude.{◌+◌, ◌≤◌, length};

use std::io::{self, Print};

// Three words per point.
#[rattlefmt::skip]
const VERTICES: [u32; 12] = [
    0, 196608, 0,
    0, 0, 196608,
    196608, 0, 0,
    65536, 65536, 65536,
];

// Writes the title, and a triangle patch of four points and three triangles.
fn put_record(out: &mut [u8], at: usize) -> usize
    requires { at + 229 ≤ length out.old }
    ensures { result ≤ at + 229 }
{
    let vertices = VERTICES;
    let indices = [0u16, 1, 3, 1, 2, 3, 2, 0, 3];
    let a = decimal_text::put_title(out, at, 1);
    let b = decimal_text::put_drawn(out, a, 4, 9);
    let c = mesh_lines::put_points(out, b, &vertices, 0, 4);
    mesh_lines::put_primitives(out, c, &indices, 3, 0, 3)
}

// Writes a number as a line.
fn put_one(out: &mut [u8], at: usize, x: u32) -> usize
    requires { at + 11 ≤ length out.old }
    ensures { result ≤ at + 11 }
{
    decimal_text::put_line1(out, at, x)
}

// Writes six numbers.
fn put_six(out: &mut [u8], at: usize, numbers: &[u32; 6]) -> usize
    requires { at + 66 ≤ length out.old }
    ensures { result ≤ at + 66 }
{
    let mut w = at;
    for x in numbers {
        w = put_one(out, w, *x);
    }
    w
}

// Writes numbers of one to ten digits.
fn put_numbers(out: &mut [u8], at: usize) -> usize
    requires { at + 132 ≤ length out.old }
    ensures { result ≤ at + 132 }
{
    let w = put_six(out, at, &[0, 7, 10, 99, 100, 1234]);
    put_six(
        out,
        w,
        &[65536, 999999, 1000000, 16777216, 999999999, 4294967295],
    )
}

// Writes answers without lists, primitives of one and of two indices, and the title of version 2.
fn put_rest(out: &mut [u8], at: usize) -> usize
    requires { at + 134 ≤ length out.old }
    ensures { result ≤ at + 134 }
{
    let indices = [5u16, 65535, 12, 345];
    let a = decimal_text::put_discarded(out, at);
    let b = decimal_text::put_refused(out, a, 8);
    let c = mesh_lines::put_primitives(out, b, &indices, 1, 1, 3);
    let d = mesh_lines::put_primitives(out, c, &indices, 2, 0, 2);
    decimal_text::put_title(out, d, 2)
}

fn main(rt: HostRuntime) -> io::Result<()> {
    let mut out = [0u8; 512];
    let a = put_record(&mut out, 0);
    let b = put_numbers(&mut out, a);
    let n = put_rest(&mut out, b);
    rt.write_all(&out[0..n])
}
