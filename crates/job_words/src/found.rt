// What is at a place of a job file, as a caller gets it.
ghost use Rattle.std.specs.Prelude.{◌≡◌, ◌<◌};
ghost use Rattle.job_words.specs.Found.{settings_out, patterns_out, nothing, found_of, found_at, number_in};

use crate::version::known_version;
use job::cursor::Cursor;
use job::next::{FoundRecord, RecordError, read_record};
use job::record::Record;
use job_fields::levels::Levels;
use job_fields::setting::SettingByte;

// All but `number` and `next` is 0, unless a record was read or a setting is unknown.
// Kept: the C interface; `yoktvarim_read_record` leaves each of these numbers in the caller's memory.
#[derive(Clone, Copy, Drop)]
pub struct Found {
    pub number: u32,
    pub place: u32,
    pub next: usize,
    pub settings: [u8; 6],
    pub patterns: [u32; 6],
}

fn settings_out(record: Record) -> [u8; 6]
    requires { «record».settings.top < 256 }
    ensures { result ≡ settings_out «record» }
{
    let settings = record.settings;
    [
        record.kind.byte(),
        settings.spacing.byte(),
        settings.order.byte(),
        settings.origin.byte(),
        settings.point_mode.byte(),
        settings.top as u8,
    ]
}

fn patterns_out(bits: Levels<u32>) -> [u32; 6]
    ensures { result ≡ patterns_out bits }
{
    [
        bits.outer0,
        bits.outer1,
        bits.outer2,
        bits.outer3,
        bits.inner0,
        bits.inner1,
    ]
}

fn nothing_read(number: u32, place: u32, next: usize) -> Found
    ensures { result ≡ nothing number place next }
{
    Found {
        number,
        place,
        next,
        settings: [0; 6],
        patterns: [0; 6],
    }
}

fn whole_record(record: Record, next: usize) -> Found
    requires { «record».settings.top < 256 }
    ensures { result ≡ record { number = 0; place = 0; next = next; settings = settings_out «record»; patterns = patterns_out «record».bits } }
{
    Found {
        number: 0,
        place: 0,
        next,
        settings: settings_out(record),
        patterns: patterns_out(record.bits),
    }
}

fn found_of(end: usize, found: Result<Option<FoundRecord>, RecordError>) -> Found
    requires { number_in found < 256 }
    ensures { result ≡ found_of end found }
{
    match found {
        Ok(Some(there)) => whole_record(there.record, there.next.at),
        Ok(None) => nothing_read(255, 0, end),
        Err(RecordError::CutRecord) => nothing_read(7, 0, end),
        Err(RecordError::UnknownSetting { place, next }) => {
            nothing_read(8, place as u32, next.at)
        }
    }
}

// Reads at a place. The end comes first, so that a caller who reads on after every other answer reaches it.
pub fn found_at(bytes: &[u8], version: u32, at: usize) -> Found
    ensures { result ≡ found_at version bytes.now at }
{
    let end = bytes.len();
    if end <= at {
        return nothing_read(255, 0, end);
    }
    match known_version(version) {
        Some(known) => found_of(end, read_record(bytes, known, Cursor { at })),
        None => nothing_read(6, 0, end),
    }
}
