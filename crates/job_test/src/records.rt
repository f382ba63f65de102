// Records of version 1: refused, whole, and several in a file.
use crate::read::{sample, walk};
use job_fields::version::Version;
use std::io::{self, Stdout};

fn record(out: Stdout, name: &str, bytes: &[u8], at: usize) -> io::Result<()> {
    sample(out, name, bytes, Version::One, at)
}

// A record of five given setting bytes and six levels of 0.
fn zeros(kind: u8, spacing: u8, order: u8, origin: u8, points: u8) -> [u8; 29] {
    let mut bytes = [0; 29];
    bytes[0] = kind;
    bytes[1] = spacing;
    bytes[2] = order;
    bytes[3] = origin;
    bytes[4] = points;
    bytes
}

// Setting bytes out of range, alone and together.
pub(crate) fn unknown(out: Stdout) -> io::Result<()> {
    record(out, "kind 3", &zeros(3, 2, 1, 1, 1), 0)?;
    record(out, "spacing 3", &zeros(2, 3, 1, 1, 1), 0)?;
    record(out, "winding 2", &zeros(2, 2, 2, 1, 1), 0)?;
    record(out, "origin 2", &zeros(2, 2, 1, 2, 1), 0)?;
    record(out, "point switch 2", &zeros(2, 2, 1, 1, 2), 0)?;
    record(out, "spacing and origin", &zeros(0, 255, 0, 255, 0), 0)?;
    record(out, "all five", &zeros(255, 255, 255, 255, 255), 0)?;
    Ok(())
}

// Under 29 bytes left, with setting bytes in range and out of range.
pub(crate) fn cut(out: Stdout) -> io::Result<()> {
    record(out, "28 bytes", &zeros(0, 0, 0, 0, 0), 1)?;
    record(out, "28 bytes and kind 3", &zeros(0, 3, 0, 0, 0), 1)?;
    record(out, "one byte", &zeros(0, 0, 0, 0, 0), 28)?;
    record(out, "no byte", &zeros(0, 0, 0, 0, 0), 29)?;
    Ok(())
}

// One triangle record: equal spacing, counter-clockwise, lower-left, no point mode, outer levels 1 1 1, inner level 2.
pub(crate) fn whole(out: Stdout) -> io::Result<()> {
    let bytes =
        b"TSJ\x01\x00\x00\x00\x01\x01\x00\x00\x00\x80\x3f\x00\x00\x80\x3f\x00\x00\x80\x3f\x00\x00\x00\x00\x00\x00\x00\x40\x00\x00\x00\x00";
    record(out, "at the record", bytes, 5)?;
    record(out, "after the record", bytes, 34)?;
    record(out, "past the end", bytes, 35)?;
    record(out, "far past the end", bytes, 18446744073709551615)?;
    record(out, "one byte further", bytes, 6)?;
    record(out, "the last byte", bytes, 33)?;
    Ok(())
}

// Quads with NaNs that have payloads, kind 9, isolines in point mode, and three further bytes.
pub(crate) fn in_turn(out: Stdout) -> io::Result<()> {
    let bytes =
        b"TSJ\x01\x00\x01\x01\x00\x01\x00\x01\x00\x80\x7f\x02\x00\xc0\xff\x00\x00\x80\x7f\x00\x00\x80\xff\x00\x00\x80\x42\x01\x00\x80\x3f\x09\x00\x00\x00\x00------------------------\x02\x02\x01\x00\x01\x00\x00\x40\x40\x00\x00\x00\x40\x01\x02\x03\x04\x05\x06\x07\x08\x00\x00\x00\x80\xff\xff\xff\xff\x00\x01\x02";
    walk(out, bytes, Version::One, 5)
}
