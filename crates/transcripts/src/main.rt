//! Goes through rows of whole connections: `transcripts FILE ..`, with files of `data/`.
#![tactic(auto)]

use std::process::ExitCode;
use transcript_reader::go_through;

/// The status is 0 where no row differs, 1 where one does, and 2 where a file can't be read.
fn main(rt: HostRuntime) -> ExitCode {
    ExitCode::from(go_through(&rt))
}
