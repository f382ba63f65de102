// Records of version 2, which have a top level.
use crate::read::{sample, walk};
use job_fields::version::Version;
use std::io::{self, Print, Stdout};

fn record(out: Stdout, name: &str, bytes: &[u8], at: usize) -> io::Result<()> {
    sample(out, name, bytes, Version::Two, at)
}

// A record with three given setting bytes, all else 0.
fn zeros(kind: u8, points: u8, top: u8) -> [u8; 30] {
    let mut bytes = [0; 30];
    bytes[0] = kind;
    bytes[4] = points;
    bytes[5] = top;
    bytes
}

// A record in which all settings but the top level are in range.
fn with_top(out: Stdout, top: u8) -> io::Result<()> {
    out.write_all(b"top ")?;
    print!(out; "{top}")?;
    record(out, "", &zeros(2, 1, top), 0)?;
    Ok(())
}

// Top levels out of range, alone and after another setting byte out of range.
pub(crate) fn unknown(out: Stdout) -> io::Result<()> {
    for top in [0, 1, 3, 63, 65, 66, 128, 255] {
        with_top(out, top)?;
    }
    record(out, "kind 3 and top 1", &zeros(3, 1, 1), 0)?;
    record(out, "point switch 2 and top 0", &zeros(2, 2, 0), 0)?;
    record(out, "point switch 2 and top 16", &zeros(2, 2, 16), 0)?;
    Ok(())
}

// Under 30 bytes left, with a top level in range and out of range.
pub(crate) fn cut(out: Stdout) -> io::Result<()> {
    record(
        out,
        "29 bytes",
        b"\x00\x00\x00\x00\x00\x40-----------------------",
        0,
    )?;
    record(
        out,
        "29 bytes and top 3",
        b"\x00\x00\x00\x00\x00\x03-----------------------",
        0,
    )?;
    record(out, "one byte of 30", &zeros(0, 0, 64), 29)?;
    record(out, "no byte of 30", &zeros(0, 0, 64), 30)?;
    Ok(())
}

// One triangle record with the top level 16, read as its own version and as the other.
pub(crate) fn by_version(out: Stdout) -> io::Result<()> {
    let bytes =
        b"TSJ\x02\x00\x00\x00\x01\x01\x00\x10\x00\x00\x80\x3f\x00\x00\x80\x3f\x00\x00\x80\x3f\x00\x00\x00\x00\x00\x00\x00\x40\x00\x00\x00\x00";
    sample(out, "version 2 as 2", bytes, Version::Two, 5)?;
    sample(out, "version 2 as 1", bytes, Version::One, 5)?;
    sample(out, "after version 2 as 2", bytes, Version::Two, 35)?;
    sample(out, "after version 2 as 1", bytes, Version::One, 34)?;
    Ok(())
}

// The least and the greatest top level, with one out of range between them, and three further bytes.
pub(crate) fn in_turn(out: Stdout) -> io::Result<()> {
    let bytes =
        b"TSJ\x02\x00\x01\x02\x00\x01\x00\x02\x00\x00\x80\x3f\x00\x00\x00\x40\x00\x00\x00\x00\x00\x00\x80\x42\x01\x00\x80\x3f\x01\x00\x80\x7f\x00\x00\x00\x00\x00\x07------------------------\x02\x01\x01\x00\x01\x40\x00\x00\x40\x40\x00\x00\x80\x42\x01\x02\x03\x04\x05\x06\x07\x08\x09\x0a\x0b\x0c\x0d\x0e\x0f\x10\x00\x01\x02";
    walk(out, bytes, Version::Two, 5)
}
