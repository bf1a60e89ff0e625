//! How a row is judged, by words:
//!
//! - `prints`: each event puts out what stands under it.
//! - `octets`: the same is put out in all where octets of the client come one by one, and where
//!   those of upstreams do.
//! - `joined`: the same, but where octets of upstreams come one by one, DATA may be cut elsewhere.
//! - `client-ends`: where the client goes away behind an octet, all is closed, and no request that
//!   wasn't complete is completed.
//! - `upstream-ends`: where an upstream ends or fails behind an octet, the client is told so as it
//!   should be, on the stream that its connection serves; and nothing where that is idle.
//! - `world-faults`: where a call of the world fails, serving it ends with that, and its log is a
//!   front of the one without the fault.
//!
//! Of long pieces, and of many calls, the last three try some (`texts::is_cut`).

ghost use Rattle.gateway.specs.Setups.{setup_of, IsServable};

use crate::octets::Data;
use crate::transcripts::Transcript;
use crate::{ends_of_clients, ends_of_upstreams, octets, printing, world_faults};
use gateway::Config;
use replay::{ScriptFault, read_script};
use std::alloc::{AllocError, Global};

/// What is wrong with a transcript by a configuration, as a word judges it.
pub(crate) fn difference(
    alloc: Global,
    config: &Config,
    transcript: &Transcript,
    word: &str,
) -> Result<Option<String>, AllocError>
    requires { IsServable (setup_of config.now) }
{
    let script = transcript.script.as_str();
    let events = match read_script(alloc, script) {
        Ok(events) => events,
        Err(ScriptFault::NotALine(number)) => {
            return Ok(Some(format!(in alloc; "event {number} is none")?));
        }
        Err(ScriptFault::Memory) => return Err(AllocError),
    };
    match word {
        "prints" => printing::difference(alloc, config, &events, &transcript.wanted),
        "octets" => octets::difference(alloc, config, script, &events, Data::Same),
        "joined" => octets::difference(alloc, config, script, &events, Data::Joined),
        "client-ends" => ends_of_clients::difference(alloc, config, &events),
        "upstream-ends" => ends_of_upstreams::difference(alloc, config, &events),
        "world-faults" => world_faults::difference(alloc, config, script),
        _ => Ok(Some(String::from_str(alloc, "no judgement")?)),
    }
}
