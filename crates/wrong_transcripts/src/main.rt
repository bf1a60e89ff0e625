//! Goes through rows that are wrong on purpose, one of each kind: `wrong_transcripts FILE ..`.
#![tactic(auto)]

use std::process::ExitCode;
use transcript_reader::go_through;

/// The status is 0 where no row differs, 1 where one does, and 2 where a file can't be read.
fn main(rt: HostRuntime) -> ExitCode {
    ExitCode::from(go_through(&rt))
}
