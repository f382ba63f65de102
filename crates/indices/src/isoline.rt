// The lines of an isoline patch, as pairs of neighbouring vertices.
ghost use Rattle.std.specs.Prelude.{◌+◌, ◌*◌, ◌≤◌, ◌<◌, length};
ghost use Rattle.buffer.specs.Over.{Wrote};
ghost use Rattle.mesh_topology.specs.Lines.{isolines};
ghost use Rattle.indices.specs.Isolines.{line_words};

// Writes one isoline of n segments, from vertex `first` on.
fn write_line(out: &mut [u16], at: usize, first: u32, n: u32) -> usize
    requires small { first + n < 65536 }
    requires room { at + 2 * n ≤ length out.old }
    ensures { Wrote out.old at (line_words first n) out.new result }
{
    let mut to = at;
    for c in 0..n {
        let x = first + c;
        to = buffer::put2(out, to, x as u16, (x + 1) as u16);
    }
    to
}

// Writes m isolines of n segments each. Each is the first one, shifted by the number of vertices before it.
pub fn write_isolines(out: &mut [u16], at: usize, m: u32, n: u32) -> usize
    requires sizes { (m ≤ 64) × (n ≤ 64) }
    requires room { at + 2 * (m * n) ≤ length out.old }
    ensures { Wrote out.old at (isolines m n) out.new result }
{
    if m == 0 {
        return at;
    }
    write_line(out, at, 0, n);
    let words = 2 * (n as usize);
    shifted_copies::write_copies(out, at, words, m as usize, (n + 1) as usize)
}
