//! What is to be replayed.

ghost use Rattle.std.specs.Prelude.{◌≡◌, map, IfOk, IfErr, OnOk, IfSome, is_some, string_bytes};
ghost use Rattle.command_line.specs.Replays.{Means};
ghost use Rattle.h2replay_setup.specs.Refusals.{LacksWords, LacksConfig, LacksFiles, IsConfigStop, IsWordsStop, IsSettingStop};
ghost use Rattle.h2replay_setup.specs.Settings.{SaysConfig};

use crate::stops::Stop;
use command_line::{ReplayWords, read_arguments, read_replay_words};
use configuration::read_config;
use std::alloc::Global;
use std::fs;
use std::io::ErrorKind;

/// What is to be replayed.
#[derive(Drop)]
pub struct Setting {
    /// The text of the configuration, if one is given.
    pub config: Option<String>,
    /// The text of the script.
    pub script: String,
}

/// Reads the command line, the configuration and the script. The configuration is judged before the
/// script is read, so that its text, where one is given, says a configuration. Which files are
/// read, and what an `Err` says of them, is no contract: nothing is said of the runtime.
pub fn read_setting(rt: &HostRuntime) -> Result<Setting, Stop>
    ensures says { IfOk result (λ setting. IfSome setting.config (λ text. SaysConfig (string_bytes text))) }
    ensures stops { IfErr result (λ stop. IsSettingStop stop) }
{
    let words = read_command_line(rt)?;
    read_files(rt, &words)
}

/// Reads the files that the words name: a configuration is read where, and only where, one is named.
fn read_files(rt: &HostRuntime, words: &ReplayWords) -> Result<Setting, Stop>
    ensures says { IfOk result (λ setting. IfSome setting.config (λ text. SaysConfig (string_bytes text))) }
    ensures named { IfOk result (λ setting. is_some setting.config ≡ is_some words.now.config) }
    ensures stops { IfErr result (λ stop. LacksFiles (is_some words.now.config) stop) }
{
    let config = match &words.config {
        Some(path) => Some(read_config_text(rt, path)?),
        None => None,
    };
    let script = match fs::read_to_string(rt, &words.script) {
        Ok(script) => script,
        Err(error) if error.kind() == ErrorKind::OutOfMemory => return Err(Stop::Memory),
        Err(error) => return Err(Stop::NoScript(error)),
    };
    Ok(Setting { config, script })
}

/// Reads the command line.
fn read_command_line(rt: &HostRuntime) -> Result<ReplayWords, Stop>
    ensures { IfErr result (λ stop. IsWordsStop stop) }
{
    let arguments = read_arguments(rt)?;
    words_of(rt.alloc(), &arguments)
}

/// What the arguments say, from the program's name on.
fn words_of(alloc: Global, arguments: &[String]) -> Result<ReplayWords, Stop>
    ensures words { IfOk result (λ words. Means (map string_bytes arguments.now) words) }
    ensures stops { IfErr result (λ stop. LacksWords (map string_bytes arguments.now) stop) }
{
    let mut words = Vec::new(alloc);
    for argument in arguments {
        if words.push(argument.as_str()).is_err() {
            return Err(Stop::Memory);
        }
    }
    match read_replay_words(alloc, &words) {
        Ok(words) => Ok(words),
        Err(fault) => Err(Stop::Words(fault)),
    }
}

/// Reads the text of a configuration, and judges it.
fn read_config_text(rt: &HostRuntime, path: &str) -> Result<String, Stop>
    ensures says { IfOk result (λ text. SaysConfig (string_bytes text)) }
    ensures stops { IfErr result (λ stop. IsConfigStop stop) }
{
    let text = match fs::read_to_string(rt, path) {
        Ok(text) => text,
        Err(error) if error.kind() == ErrorKind::OutOfMemory => return Err(Stop::Memory),
        Err(error) => return Err(Stop::NoConfig(error)),
    };
    judge_config(rt.alloc(), &text)?;
    Ok(text)
}

/// Judges the text of a configuration.
fn judge_config(alloc: Global, text: &str) -> Result<(), Stop>
    ensures says { OnOk result (SaysConfig text.now) }
    ensures stops { IfErr result (λ stop. LacksConfig text.now stop) }
{
    match read_config(alloc, text) {
        Ok(_config) => Ok(()),
        Err(fault) => Err(Stop::Config(fault)),
    }
}
