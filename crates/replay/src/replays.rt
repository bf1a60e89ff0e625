//! The replay of a script.

ghost use Rattle.std.specs.Prelude.{◌≡◌, ◌≤◌, ◌⊎◌, ◌++◌, ⊤, IfOk, IfErr, OnOk, string_bytes, codes};
ghost use Rattle.std.specs.Option.{option_copied};
ghost use Rattle.std.specs.Io.KnownBytes.{Appends};
ghost use Rattle.gateway.specs.Setups.{setup_of, IsServable};
ghost use Rattle.configuration.specs.Lines.{line_of};
ghost use Rattle.replay.specs.Printing.{IsRun, IsRunBy, IsRefused, IsRefusedBy, IsSetup, IsNoSetup, default_setup, message};
ghost use Rattle.replay.specs.Stops.{Explains, ExplainsBehind, IsRunTo};

use crate::printing::print_steps;
use crate::scripts::{ScriptFault, read_script};
use configuration::{ConfigFault, read_config};
use gateway::{Config, Output, Route, RunFault};
use std::alloc::{AllocError, Global};
use std::io;
use std::io::Write;

/// Why a script isn't replayed.
#[derive(Clone, Copy)]
pub enum ReplayFault {
    /// The line at this place, from 1, is the first that says nothing.
    NotALine(usize),
    /// The event of the line at this place, from 1, isn't admitted.
    NotAdmitted(usize),
    /// No memory was left.
    Memory,
}

/// Replays a script: the events that its lines say are run, and every output is written on a line
/// of `out`, as `C hex`, `O k route`, `U k hex`, `X k` or `XC`. All lines are made before the first
/// is written.
///
/// It is run with what the text of a configuration says, or without one with the default: plain
/// header blocks, whole bodies of at most 1,048,576 octets either way, and one route for every
/// authority and path, to an upstream without an address.
///
/// The status is 0; 1 where `err` says what is the matter with the configuration, or else
/// `line n: not a line` of the first line that isn't one, or else `line n: not admitted`, with n
/// from 1, and nothing is written on `out`; 2 where no memory was left or a write failed, and then
/// nothing is written on `out` but of a run that was made whole, whose lines couldn't all be
/// written.
pub fn replay<O: Write, E: Write>(
    alloc: Global,
    config: Option<&str>,
    script: &str,
    out: &mut O,
    err: &mut E,
) -> u8
    ensures run { result ≡ 0 → IsRun (option_copied config.entry) script.now (Appends (O.contents out.old) (O.contents out.new)) × (err.new ≡ err.old) }
    ensures refused { result ≡ 1 → IsRefused (option_copied config.entry) script.now (Appends (E.contents err.old) (E.contents err.new)) × (out.new ≡ out.old) }
    ensures failed { result ≡ 2 → (out.new ≡ out.old) ⊎ IsRun (option_copied config.entry) script.now (λ text. ⊤) }
    ensures status { result ≤ 2 }
{
    match config_of(alloc, config) {
        Ok(config) => replay_with(alloc, &config, script, out, err),
        Err(ConfigFault::Memory) => 2,
        Err(fault) => report_config(alloc, fault, err),
    }
}

/// Replays a script with a configuration.
fn replay_with<O: Write, E: Write>(
    alloc: Global,
    config: &Config,
    script: &str,
    out: &mut O,
    err: &mut E,
) -> u8
    requires { IsServable (setup_of config.now) }
    ensures run { result ≡ 0 → IsRunBy (setup_of config.now) script.now (Appends (O.contents out.old) (O.contents out.new)) × (err.new ≡ err.old) }
    ensures refused { result ≡ 1 → IsRefusedBy (setup_of config.now) script.now (Appends (E.contents err.old) (E.contents err.new)) × (out.new ≡ out.old) }
    ensures failed { result ≡ 2 → (out.new ≡ out.old) ⊎ IsRunBy (setup_of config.now) script.now (λ text. ⊤) }
    ensures status { result ≤ 2 }
{
    match printed(alloc, config, script) {
        Ok(text) => match write_text(out, &text) {
            Ok(()) => 0,
            Err(_) => 2,
        },
        Err(ReplayFault::NotALine(place)) => report(alloc, place, "not a line", err),
        Err(ReplayFault::NotAdmitted(place)) => report(alloc, place, "not admitted", err),
        Err(ReplayFault::Memory) => 2,
    }
}

/// Says on `err` what is the matter with a configuration. The status is 1, or 2 where that can't be said.
fn report_config<E: Write>(alloc: Global, fault: ConfigFault, err: &mut E) -> u8
    ensures written { result ≡ 1 → Appends (E.contents err.old) (E.contents err.new) (line_of fault ++ codes "\n") }
    ensures status { (result ≡ 1) ⊎ (result ≡ 2) }
{
    let Ok(text) = line_with_end(alloc, fault.line()) else {
        return 2;
    };
    match write_text(err, &text) {
        Ok(()) => 1,
        Err(_) => 2,
    }
}

/// A text as a line.
fn line_with_end(alloc: Global, text: &str) -> Result<String, AllocError>
    ensures { IfOk result (λ line. string_bytes line ≡ text.now ++ codes "\n") }
{
    format!(in alloc; "{text}\n")
}

/// Says on `err` what is the matter with a line. The status is 1, or 2 where that can't be said.
fn report<E: Write>(alloc: Global, place: usize, what: &str, err: &mut E) -> u8
    ensures written { result ≡ 1 → Appends (E.contents err.old) (E.contents err.new) (message place what.now) }
    ensures status { (result ≡ 1) ⊎ (result ≡ 2) }
{
    let Ok(text) = message_of(alloc, place, what) else {
        return 2;
    };
    match write_text(err, &text) {
        Ok(()) => 1,
        Err(_) => 2,
    }
}

/// What is the matter with a line, as a line.
fn message_of(alloc: Global, place: usize, what: &str) -> Result<String, AllocError>
    ensures { IfOk result (λ text. string_bytes text ≡ message place what.now) }
{
    format!(in alloc; "line {place}: {what}\n")
}

/// Writes a whole text.
fn write_text<W: Write>(writer: &mut W, text: &str) -> io::Result<()>
    ensures { OnOk result (Appends (W.contents writer.old) (W.contents writer.new) text.now) }
{
    writer.write_all(text.as_bytes())?;
    writer.flush()
}

/// Runs a script with a configuration, and has in `steps`, in place of what it has, what a gateway
/// put out at each event that its lines say. Where the event of a line may not come, these are what
/// was put out at the events before it: so a line is refused only behind just these.
pub fn run_script(
    alloc: Global,
    config: &Config,
    script: &str,
    steps: &mut Vec<Vec<Output>>,
) -> Result<(), ReplayFault>
    requires { IsServable (setup_of config.now) }
    ensures ok { OnOk result (IsRunTo (setup_of config.now) script.now steps.new.items) }
    ensures err { IfErr result (λ stop. ExplainsBehind (setup_of config.now) script.now steps.new.items stop) }
{
    steps.clear();
    let events = match read_script(alloc, script) {
        Ok(events) => events,
        Err(ScriptFault::NotALine(place)) => return Err(ReplayFault::NotALine(place)),
        Err(ScriptFault::Memory) => return Err(ReplayFault::Memory),
    };
    match gateway::run_into(alloc, config, &events, steps) {
        Ok(()) => Ok(()),
        Err(RunFault::NotAdmitted(place)) => Err(ReplayFault::NotAdmitted(place + 1)),
        Err(RunFault::Memory(_)) => Err(ReplayFault::Memory),
    }
}

/// What the replay of a script prints.
fn printed(alloc: Global, config: &Config, script: &str) -> Result<String, ReplayFault>
    requires { IsServable (setup_of config.now) }
    ensures ok { IfOk result (λ text. IsRunBy (setup_of config.now) script.now (λ written. string_bytes text ≡ written)) }
    ensures err { IfErr result (λ stop. Explains (setup_of config.now) script.now stop) }
{
    let mut steps = Vec::new(alloc);
    run_script(alloc, config, script, &mut steps)?;
    match print_steps(alloc, &steps) {
        Ok(text) => Ok(text),
        Err(_) => Err(ReplayFault::Memory),
    }
}

/// The configuration that a text is, and the default where none is given.
fn config_of(alloc: Global, text: Option<&str>) -> Result<Config, ConfigFault>
    ensures ok { IfOk result (λ config. IsSetup (option_copied text.entry) (setup_of config)) }
    ensures servable { IfOk result (λ config. IsServable (setup_of config)) }
    ensures err { IfErr result (λ fault. IsNoSetup (option_copied text.entry) fault) }
{
    match text {
        Some(text) => read_config(alloc, text),
        None => match default_config(alloc) {
            Ok(config) => Ok(config),
            Err(_) => Err(ConfigFault::Memory),
        },
    }
}

/// The configuration where none is given.
fn default_config(alloc: Global) -> Result<Config, AllocError>
    ensures setup { IfOk result (λ config. setup_of config ≡ default_setup) }
    ensures servable { IfOk result (λ config. IsServable (setup_of config)) }
{
    let route = Route {
        authority: Vec::new(alloc),
        prefix: Vec::from_slice(alloc, b"/")?,
        upstream: String::new(alloc),
    };
    Ok(Config::new(vec![in alloc; route]?))
}
