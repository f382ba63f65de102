// Job files: each call is that of `job_exports`, with its contract.
ghost use Rattle.job_exports.specs.Calls.{HeaderCalled, RecordCalled, HeaderAsked, RecordAsked};

#[unsafe(no_mangle)]
pub extern "C" fn yoktvarim_write_header(
    version: u32,
    bytes: &mut [u8],
    count: &mut [u32; 1],
) -> u32
    ensures { HeaderCalled version bytes.old bytes.new count.new result }
{
    job_exports::write::yoktvarim_write_header(version, bytes, count)
}

#[unsafe(no_mangle)]
pub extern "C" fn yoktvarim_write_record(
    version: u32,
    settings: &[u8; 6],
    patterns: &[u32; 6],
    bytes: &mut [u8],
    count: &mut [u32; 1],
) -> u32
    ensures { RecordCalled version settings.now patterns.now bytes.old bytes.new count.new result }
{
    job_exports::write::yoktvarim_write_record(version, settings, patterns, bytes, count)
}

#[unsafe(no_mangle)]
pub extern "C" fn yoktvarim_read_header(bytes: &[u8], version: &mut [u32; 1]) -> u32
    ensures { HeaderAsked bytes.now version.new result }
{
    job_exports::read::yoktvarim_read_header(bytes, version)
}

#[unsafe(no_mangle)]
pub extern "C" fn yoktvarim_read_record(
    bytes: &[u8],
    version: u32,
    at: usize,
    settings: &mut [u8; 6],
    patterns: &mut [u32; 6],
    next: &mut [usize; 1],
    place: &mut [u32; 1],
) -> u32
    ensures { RecordAsked version bytes.now at
        (record { settings = settings.new; patterns = patterns.new; next = next.new; place = place.new }) result }
{
    job_exports::read::yoktvarim_read_record(bytes, version, at, settings, patterns, next, place)
}
