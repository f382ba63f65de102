// Writing a job file: a header and a record, each to the front of the caller's list.
ghost use Rattle.job_exports.specs.Calls.{HeaderCalled, RecordCalled};

use crate::reply::{of_written_header, of_written_record};
use call_answers::reply::{bad_top, refusal, say_one, unknown_setting};
use call_inputs::input::top_in;
use job_bytes::top_byte::takes_top;
use job_fields::setting::first_unknown;
use job_words::input::record_in;
use job_words::version::known_version;
use job_writer::header::write_header;
use job_writer::record::write_record;

#[unsafe(no_mangle)]
pub extern "C" fn yoktvarim_write_header(
    version: u32,
    bytes: &mut [u8],
    count: &mut [u32; 1],
) -> u32
    ensures { HeaderCalled version bytes.old bytes.new count.new result }
{
    let Some(known) = known_version(version) else {
        return say_one(refusal(6), count);
    };
    say_one(of_written_header(write_header(bytes, known)), count)
}

#[unsafe(no_mangle)]
pub extern "C" fn yoktvarim_write_record(
    version: u32,
    settings: &[u8; 6],
    patterns: &[u32; 6],
    bytes: &mut [u8],
    count: &mut [u32; 1],
) -> u32
    ensures { RecordCalled version settings.now patterns.now bytes.old bytes.new count.new result }
{
    let Some(known) = known_version(version) else {
        return say_one(refusal(6), count);
    };
    if !takes_top(known, top_in(settings)) {
        return say_one(bad_top(), count);
    }
    let place = first_unknown(settings, 0);
    if place < 5 {
        return say_one(unknown_setting(place), count);
    }
    let record = record_in(settings, patterns);
    say_one(of_written_record(write_record(bytes, known, record)), count)
}
