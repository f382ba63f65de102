// Reading a job file: its header, and the record at a place.
ghost use Rattle.job_exports.specs.Calls.{HeaderAsked, RecordAsked};

use crate::reply::of_header;
use call_answers::reply::say_one;
use job::header::read_header;
use job_words::found::found_at;

#[unsafe(no_mangle)]
pub extern "C" fn yoktvarim_read_header(bytes: &[u8], version: &mut [u32; 1]) -> u32
    ensures { HeaderAsked bytes.now version.new result }
{
    say_one(of_header(read_header(bytes)), version)
}

#[unsafe(no_mangle)]
pub extern "C" fn yoktvarim_read_record(
    bytes: &[u8],
    version: u32,
    at: usize,
    settings: &mut [u8; 6],
    patterns: &mut [u32; 6],
    next: &mut [usize; 1],
    place: &mut [u32; 1],
) -> u32
    ensures { RecordAsked version bytes.now at
        (record { settings = settings.new; patterns = patterns.new; next = next.new; place = place.new }) result }
{
    let found = found_at(bytes, version, at);
    let six_settings = found.settings;
    let six_patterns = found.patterns;
    *settings = six_settings;
    *patterns = six_patterns;
    *next = [found.next];
    *place = [found.place];
    found.number
}
