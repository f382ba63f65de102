// Fills tables of sides with the sides of small meshes and lists those without a reverse, by both forms of `half_edges` and by a table of
// its own; writes what each call returns.
#![tactic(auto)]

use half_edges::table::{BitTable, ChainTable};
use std::io::{self, Print, Stdout};

mod calls;
mod own;

fn main(rt: HostRuntime) -> io::Result<()> {
    let out = rt.stdout();
    each_table(out, "closed", &[0, 1, 2, 0, 2, 3, 0, 3, 1, 1, 3, 2])?;
    each_table(out, "open", &[0, 1, 2, 0, 2, 3])?;
    each_table(out, "repeated", &[0, 1, 2, 1, 3, 2, 0, 1, 3])?;
    each_table(out, "apart", &[0, 1, 2, 3, 4, 5, 6, 7, 0])
}

// A mesh of up to 8 vertices, by each table.
fn each_table(out: Stdout, mesh: &str, indices: &[u16]) -> io::Result<()> {
    print!(out; "{mesh} bits")?;
    calls::write::<BitTable>(out, indices)?;
    print!(out; "{mesh} chains")?;
    calls::write::<ChainTable<8, 36>>(out, indices)?;
    print!(out; "{mesh} own")?;
    calls::write::<own::EightTable>(out, indices)
}
