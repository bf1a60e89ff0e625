//! The command line of the replay.

ghost use Rattle.std.specs.Prelude.{◌≡◌, map, IfOk, IfErr};
ghost use Rattle.clap.specs.Words.{app_of, found_of};
ghost use Rattle.command_line.specs.Replays.{replay_app, HasValues, LacksValues, Means, Refuses};

use crate::values::{command, fault_of, option, owned, text_of, value};
use crate::words::{Word, WordsFault};
use clap::{ArgMatches, Command};
use std::alloc::{AllocError, Global};

/// What `--help` says of the program, of how it is used, and of each word.
const ABOUT: &str = "Runs the gateway over a script, and prints what it puts out";

const USAGE: &str = "h2replay [OPTIONS] SCRIPT";

const CONFIG: &str = "Where the configuration stands, a table of TOML [default: one route for all]";

const SCRIPT: &str = "Where the script stands (needed)";

/// The values of the replay's command line.
#[derive(Debug, Drop)]
pub struct ReplayWords {
    /// Where the configuration stands, if one is given.
    pub config: Option<String>,
    /// Where the script stands.
    pub script: String,
}

/// Reads the replay's command line, from the program's name on: `[--config FILE] SCRIPT`. `--help`,
/// `--version` and what isn't such a line is a fault, and so is one without a script.
pub fn read_replay_words<'a>(alloc: Global, words: &'a [&'a str]) -> Result<ReplayWords, WordsFault>
    ensures ok { IfOk result (λ values. Means (map (λ word. word.now) words.entry.now) values) }
    ensures err { IfErr result (λ fault. Refuses (map (λ word. word.now) words.entry.now) fault) }
{
    let Ok(command) = replay_command(alloc) else {
        return Err(WordsFault::Memory);
    };
    match command.try_get_matches_from(words) {
        Ok(matches) => replay_values(alloc, &matches),
        Err(error) => Err(fault_of(error)),
    }
}

/// The command as `clap` reads it.
fn replay_command<'a>(alloc: Global) -> Result<Command<'a>, AllocError>
    ensures { IfOk result (λ command. app_of command ≡ replay_app) }
{
    command(alloc, "h2replay", ABOUT, USAGE)
        .arg(option(alloc, Word::Config, "FILE", CONFIG))?
        .arg(value(alloc, Word::Script, "SCRIPT", SCRIPT))
}

/// The values that a parse found.
fn replay_values(alloc: Global, matches: &ArgMatches<'_>) -> Result<ReplayWords, WordsFault>
    ensures ok { IfOk result (λ values. HasValues (found_of matches.now) values) }
    ensures err { IfErr result (λ fault. LacksValues (found_of matches.now) fault) }
{
    let script = text_of(matches, Word::Script)?;
    Ok(ReplayWords {
        config: owned(alloc, matches.get_str("config"))?,
        script: String::from_str(alloc, script)?,
    })
}
