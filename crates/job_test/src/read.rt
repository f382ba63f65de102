// Reads records and writes the answers.
use crate::show::write_answer;
use job::cursor::Cursor;
use job::next::{RecordError, read_record};
use job_fields::version::Version;
use std::io::{self, Print, Stdout};

// The record at a place.
pub(crate) fn sample(
    out: Stdout,
    name: &str,
    bytes: &[u8],
    version: Version,
    at: usize,
) -> io::Result<()> {
    print!(out; "{name}: ")?;
    write_answer(out, read_record(bytes, version, Cursor { at }))
}

// Every record from a place on.
pub(crate) fn walk(out: Stdout, bytes: &[u8], version: Version, from: usize) -> io::Result<()> {
    let mut at = from;
    // Kept: where the next record begins is known only after one is read, so no range counts the places.
    loop {
        let answer = read_record(bytes, version, Cursor { at });
        print!(out; "{at}: ")?;
        write_answer(out, answer)?;
        match answer {
            Ok(Some(there)) => {
                at = there.next.at;
            }
            Err(RecordError::UnknownSetting { next, .. }) => {
                at = next.at;
            }
            Ok(None) | Err(RecordError::CutRecord) => {
                return Ok(());
            }
        }
    }
}
