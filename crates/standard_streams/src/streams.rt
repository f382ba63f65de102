// The standard streams of the process.
use std::process::ExitCode;

// The streams, and whether a write found that nobody reads standard output any more.
#[derive(Clone, Copy, Drop)]
pub struct Streams {
    pub(crate) rt: HostRuntime,
    pub(crate) is_closed: bool,
}

impl Streams {
    pub fn new(rt: HostRuntime) -> Streams {
        Streams {
            rt,
            is_closed: false,
        }
    }

    // The status with which the program ends: where nobody reads its output any more that of a shell for a process that the signal of a closed
    // pipe ended, since that signal does not reach the program.
    pub fn exit_code(&self) -> ExitCode {
        ExitCode::from(if self.is_closed { 141 } else { 0 })
    }
}
