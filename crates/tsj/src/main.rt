// Reads a job from standard input and writes the answers to standard output.
#![tactic(auto)]

use standard_streams::Streams;
use std::process::ExitCode;

fn main(rt: HostRuntime) -> ExitCode {
    let mut streams = Streams::new(rt);
    let mut header = [0u8; 5];
    let mut records = [0u8; 7680];
    let mut vertices: [u32; 12675] = [0; 12675];
    let mut indices: [u16; 24576] = [0; 24576];
    tsj_run::run::run(
        &mut streams,
        &mut header,
        &mut records,
        &mut vertices,
        &mut indices,
    );
    streams.exit_code()
}
