//! Scripts: texts whose lines say what happens to a gateway.

ghost use Rattle.std.specs.Prelude.{◌+◌, map, IfOk, IfErr};
ghost use Rattle.replay.specs.Scripts.{lines_of, AllSay};
ghost use Rattle.replay.specs.Faults.{ExplainsFault};
ghost use Rattle.gateway.specs.Views.{event_of};

use crate::lines::{LineFault, first_line, read_line};
use gateway::Event;
use std::alloc::Global;
use thiserror::Error;

/// Why a script can't be run.
#[derive(Clone, Copy, Debug, PartialEq, Eq, Drop, Error)]
pub enum ScriptFault {
    /// The line at this place, from 1, is the first that says nothing.
    #[error("line {0}: not a line")]
    NotALine(usize),
    /// No memory was left.
    #[error("no memory")]
    Memory,
}

/// The events that the lines of a script say, in their order.
///
/// A line is `C hex`, `CE`, `CT n`, `U k hex`, `UE k`, `UF k`, `UT k n` or `D`: octets of the
/// client, its end, a number of octets that were taken from it, and the same of the upstream
/// connection k, of which `UF` is a failure; or the operator wants the connection to end. One space
/// stands between words. A number has one to nine decimal digits; hex has two digits of either case
/// for each octet, and none for no octets. Each line ends with LF, the last perhaps not.
pub fn read_script(alloc: Global, script: &str) -> Result<Vec<Event>, ScriptFault>
    ensures ok { IfOk result (λ events. AllSay (lines_of script.now) (map event_of events.items)) }
    ensures err { IfErr result (λ fault. ExplainsFault script.now fault) }
{
    let mut events = Vec::new(alloc);
    let mut rest = script.as_bytes();
    while let Some((line, after)) = first_line(rest) {
        match read_line(alloc, line) {
            Ok(event) => events.push(event).map_err(|_| ScriptFault::Memory)?,
            Err(LineFault::NotALine) => return Err(ScriptFault::NotALine(events.len() + 1)),
            Err(LineFault::Memory) => return Err(ScriptFault::Memory),
        }
        rest = after;
    }
    Ok(events)
}
