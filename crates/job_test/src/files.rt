// Headers, good and damaged.
use crate::show::write_header;
use job::header::read_header;
use std::io::{self, Print, Stdout};

fn header(out: Stdout, name: &str, bytes: &[u8]) -> io::Result<()> {
    print!(out; "{name}: ")?;
    write_header(out, read_header(bytes))
}

// Whole and cut headers, and marks of other files.
pub(crate) fn marks(out: Stdout) -> io::Result<()> {
    header(out, "header alone", b"TSJ\x01\x00")?;
    header(out, "header and a byte", b"TSJ\x01\x00\x07")?;
    header(out, "no byte", b"")?;
    header(out, "four bytes", b"TSJ\x01")?;
    header(out, "first letter", b"USJ\x01\x00")?;
    header(out, "third letter", b"TSR\x01\x00")?;
    Ok(())
}

// Versions, and a wrong mark together with a wrong version.
pub(crate) fn versions(out: Stdout) -> io::Result<()> {
    header(out, "version 2", b"TSJ\x02\x00")?;
    header(out, "version 0", b"TSJ\x00\x00")?;
    header(out, "version 3", b"TSJ\x03\x00")?;
    header(out, "version 256", b"TSJ\x00\x01")?;
    header(out, "version 257", b"TSJ\x01\x01")?;
    header(out, "version 258", b"TSJ\x02\x01")?;
    header(out, "version 512", b"TSJ\x00\x02")?;
    header(out, "mark and version", b"TSK\x03\x00")?;
    Ok(())
}
