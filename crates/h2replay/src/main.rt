//! Replays a script on a gateway: `h2replay [--config FILE] SCRIPT`.
#![tactic(auto)]

use h2replay_setup::setting::read_setting;
use h2replay_setup::stops::{Stop, report};
use std::io;
use std::process::ExitCode;

/// The status is that of the replay: 0, or 1 for a configuration or a script that is refused, or 2
/// where no memory was left or a write failed. It is 1 too for a command line that isn't taken, and
/// for a file that can't be read or isn't UTF-8. What is wrong with the command line is said first,
/// then what is wrong with the configuration.
fn main(rt: HostRuntime) -> ExitCode {
    match run(&rt) {
        Ok(status) => ExitCode::from(status),
        Err(stop) => ExitCode::from(report(&rt, &stop)),
    }
}

/// Reads what is to be replayed, and replays it. The answer is the status of the replay.
fn run(rt: &HostRuntime) -> Result<u8, Stop> {
    let setting = read_setting(rt)?;
    let mut out = io::writer(rt);
    let mut err = rt.stderr();
    Ok(replay::replay(
        rt.alloc(),
        setting.config.as_deref(),
        &setting.script,
        &mut out,
        &mut err,
    ))
}
