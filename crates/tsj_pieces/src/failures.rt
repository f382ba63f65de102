// Reads and writes; a failure is reported by a line on standard error.
ghost use Rattle.std.specs.Prelude.{◌≤◌, length};
ghost use Rattle.standard_streams.specs.Moved.{Filled, Taken};

use standard_streams::{Input, Output, Streams, read_front};

// Reads up to `size` bytes to the front of `bytes`.
pub(crate) fn read_or_tell(streams: &Streams, bytes: &mut [u8], size: usize) -> Input
    requires { size ≤ length bytes.old }
    ensures { Filled size bytes.new result }
{
    let input = read_front(streams, &mut bytes[..size]);
    if input.failed {
        standard_streams::tell(streams, b"tsj: standard input could not be read\n");
    }
    input
}

// Writes `bytes`.
pub(crate) fn write_or_tell(streams: &mut Streams, bytes: &[u8]) -> Output
    ensures { Taken (length bytes.now) result }
{
    standard_streams::write_or_tell(
        streams,
        bytes,
        b"tsj: standard output could not be written\n",
    )
}
