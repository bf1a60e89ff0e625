//! A gateway over a list of events.

ghost use Rattle.std.specs.Prelude.{◌≡◌, [], length, map, IfOk, IfErr, OnOk};
ghost use Rattle.model.specs.Setup.{Setup};
ghost use Rattle.effects.specs.Views.{event_of};
ghost use Rattle.nothing_smuggled.specs.Smuggling.{NothingSmuggled};
ghost use Rattle.gateway.specs.Promises.{Promise};
ghost use Rattle.gateway.specs.Runs.{log_of, Explains, Stops};
ghost use Rattle.gateway.specs.Setups.{setup_of, IsServable};
ghost use Rattle.gateway.specs.Stands.{Stands};

use crate::config::Config;
use crate::gateway::Gateway;
use effects::{Event, Output};
use std::alloc::Global;
use thiserror::Error;

/// Why a run is refused. The number is the event's place, from 0.
#[derive(Clone, Copy, PartialEq, Eq, Debug, Drop, Error)]
pub enum RunFault {
    /// The event may not come after those before it.
    #[error("the event at place {0} may not come after those before it")]
    NotAdmitted(usize),
    /// Memory was refused at the event; at 0 also where the routes couldn't be copied.
    #[error("memory was refused at the event at place {0}")]
    Memory(usize),
}

/// Runs a gateway over events, and answers what it put out at each. The maxima are at most
/// 1,073,741,824, and there are at most 4,294,967,295 routes. Upstream connections are kept or not,
/// as the configuration says.
pub fn run(alloc: Global, config: &Config, events: &[Event]) -> Result<Vec<Vec<Output>>, RunFault>
    requires { IsServable (setup_of config.now) }
    // The log of the events and of what was put out has the headline, and behind it tables are in
    // step, for any events, however the octets are cut.
    ensures promised { IfOk result (λ outputs. Promise (setup_of config.now) (log_of events.now outputs.items)) }
    // So nothing is smuggled: at any time what each upstream connection was sent reads as requests
    // that distinct streams mean, and a rest that begins none.
    ensures safe { IfOk result (λ outputs. NothingSmuggled (log_of events.now outputs.items)) }
    ensures each { IfOk result (λ outputs. length outputs.items ≡ length events.now) }
    // An event is refused only where it may not come after such a log of the events before it.
    ensures refused { IfErr result (λ fault. Explains (setup_of config.now) (map event_of events.now) fault) }
{
    let mut outputs = Vec::new(alloc);
    match run_into(alloc, config, events, &mut outputs) {
        Ok(()) => Ok(outputs),
        Err(fault) => Err(fault),
    }
}

/// Runs a gateway over events, likewise, and has in `outputs`, in place of what it has, what that
/// put out at each that was taken: where the run is refused, at those before the event that the
/// fault names. So an event is refused only where it may not come behind just these.
pub fn run_into(
    alloc: Global,
    config: &Config,
    events: &[Event],
    outputs: &mut Vec<Vec<Output>>,
) -> Result<(), RunFault>
    requires { IsServable (setup_of config.now) }
    ensures promised { OnOk result (Promise (setup_of config.now) (log_of events.now outputs.new.items)) }
    ensures each { OnOk result (length outputs.new.items ≡ length events.now) }
    ensures refused { IfErr result (λ fault. Stops (setup_of config.now) events.now outputs.new.items fault) }
{
    outputs.clear();
    let Ok(mut gateway) = Gateway::new(alloc, config) else {
        return Err(RunFault::Memory(0));
    };
    run_all(alloc, &mut gateway, events, outputs)
}

/// Runs a gateway that no event came to over events, and adds what it put out at each that was
/// taken. That one is lent keeps it out of the many ways in which this ends.
fn run_all(
    alloc: Global,
    gateway: &mut Gateway,
    events: &[Event],
    outputs: &mut Vec<Vec<Output>>,
) -> Result<(), RunFault>
    requires stands { (setup : Setup) × Stands setup gateway.old [] [] }
    requires empty { outputs.old.items ≡ [] }
    ensures promised { OnOk result ((setup : Setup) → Stands setup gateway.old [] [] → Promise setup (log_of events.now outputs.new.items)) }
    ensures each { OnOk result (length outputs.new.items ≡ length events.now) }
    ensures refused { IfErr result (λ fault. (setup : Setup) → Stands setup gateway.old [] [] → Stops setup events.now outputs.new.items fault) }
{
    for (n, event) in events.iter().enumerate() {
        if !gateway.admits(event) {
            return Err(RunFault::NotAdmitted(n));
        }
        let mut out = Vec::new(alloc);
        let Ok(()) = gateway.step(event, &mut out) else {
            return Err(RunFault::Memory(n));
        };
        let Ok(()) = outputs.push(out) else {
            return Err(RunFault::Memory(n));
        };
    }
    Ok(())
}
