// Reads good and damaged job files, and writes the answers.
#![tactic(auto)]

use std::io;

mod files;
mod read;
mod records;
mod show;
mod tops;

fn main(rt: HostRuntime) -> io::Result<()> {
    let out = rt.stdout();
    files::marks(out)?;
    files::versions(out)?;
    records::unknown(out)?;
    records::cut(out)?;
    records::whole(out)?;
    records::in_turn(out)?;
    tops::unknown(out)?;
    tops::cut(out)?;
    tops::by_version(out)?;
    tops::in_turn(out)?;
    Ok(())
}
