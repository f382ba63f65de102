// The dots of point mode: the vertex numbers in order.
ghost use Rattle.std.specs.Prelude.{◌+◌, ◌≤◌, ◌<◌, length};
ghost use Rattle.buffer.specs.Over.{Wrote};
ghost use Rattle.mesh_topology.specs.Lines.{dots};

pub fn write_dots(out: &mut [u16], at: usize, p: u32) -> usize
    requires small { p < 65536 }
    requires room { at + p ≤ length out.old }
    ensures { Wrote out.old at (dots p) out.new result }
{
    let mut to = at;
    for i in 0..p {
        to = buffer::put(out, to, i as u16);
    }
    to
}
