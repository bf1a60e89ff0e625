//! A gateway before a world.

ghost use Rattle.std.specs.Prelude.{◌≡◌, ℕ, ◌+◌, ◌<◌, ◌≤◌, ◌^◌, ◌∷◌, ◌++◌, [], List, Option, Some, length, reverse};
ghost use Rattle.std.specs.Prelude.{None, true, false, Err, IsOkAnd, IsErrOf, OnOk, OnErr, IfOk, IfErr};
ghost use Rattle.model.specs.Logs.{Step, Output as Put};
ghost use Rattle.std.specs.List.{list_any};
ghost use Rattle.model.specs.Setup.{Setup};
ghost use Rattle.effects.specs.Views.{event_of, output_of, outputs_of};
ghost use Rattle.theory.specs.Moves.{Move};
ghost use Rattle.theory.specs.State.{conducts, tape_of};
ghost use Rattle.gateway.specs.Setups.{setup_of, IsServable};
ghost use Rattle.gateway.specs.Stands.{Stands};
ghost use Rattle.gateway.specs.Rooms.{AreRooms};
ghost use Rattle.driver.specs.Worlds.{Handed, AddsRun, AddsFront, AddsFrontTo, AddsRefused, AddsRefusedTo};
ghost use Rattle.driver.specs.Worlds.{AddsUnanswered, AddsUnansweredTo, AreAllHanded, Hands, HandsTo, SaysEnd, ends};
ghost use Rattle.driver.specs.Worlds.{with_outputs, came, closes, has_closed, Serves, StandsWithRooms, peer_of};
ghost use Rattle.driver.specs.Services.{Begins};
ghost use Rattle.driver.specs.Calls.{Call, Along, Moves, AreWhole, AreCutShort, AppliesTo, HasCome, Runs, WasServed, TurnLeaves, told};
ghost use Rattle.model.specs.Rooms.{IsAdmitted};
ghost use Rattle.theory_errors.specs.Rule.{known_of};

use crate::service::Service;
use crate::world::{Next, World, WorldFault};
use gateway::{Config, Event, Gateway, Output};
use std::alloc::Global;
use std::fmt;
use thiserror::Error;

/// How serving a world ended.
#[derive(Clone, Copy, Debug, PartialEq, Eq, Drop)]
pub enum ServiceEnd {
    /// The client was closed.
    Closed,
    /// The world said that nothing comes any more.
    Over,
    /// All turns were taken.
    Turns,
}

/// Whose event it is.
#[derive(Clone, Copy, Debug, PartialEq, Eq, Drop)]
pub enum Peer {
    /// The client's: its octets, or its end.
    Client,
    /// An upstream's, by its number: its octets, its end, or its failure.
    Upstream(u32),
    /// The world's own, which tells that octets were taken, or that the operator wants the end.
    World,
}

impl fmt::Display for Peer {
    fn fmt<W: fmt::Write>(&self, f: &mut fmt::Formatter<W>) -> fmt::Result {
        match self {
            Peer::Client => f.write_str("the client"),
            Peer::Upstream(k) => write!(f, "upstream connection {k}"),
            Peer::World => f.write_str("the world"),
        }
    }
}

/// Whose event this is.
fn whose(event: &Event) -> Peer
    ensures { result ≡ peer_of event.now }
{
    match event {
        Event::Up(k, _) | Event::UpEnd(k) | Event::UpFailed(k) => Peer::Upstream(*k),
        Event::Client(_) | Event::ClientEnd => Peer::Client,
        Event::ClientTook(_) | Event::UpTook(_, _) | Event::Drain => Peer::World,
    }
}

/// Why serving a world failed.
#[derive(Clone, Copy, Debug, PartialEq, Eq, Drop, Error)]
pub enum ServeFault {
    /// A call of the world failed.
    #[error("a call of the world failed")]
    World,
    /// Memory was refused.
    #[error("memory was refused")]
    Memory,
    /// An event of this peer came that may not come after those before it. It was left alone.
    #[error("an event of {0} came that may not come after those before it")]
    NotAdmitted(Peer),
}

/// Applies outputs in order.
fn apply_all<W: World>(world: &mut W, outputs: &[Output]) -> Result<(), WorldFault>
    requires { W.failures world.old + 1 < 2 ^ 64 }
    ensures calls { W.calls world.new ≡ W.calls world.old }
    ensures failures { OnOk result (W.failures world.new ≡ W.failures world.old) }
    ensures failed { OnErr result (W.failures world.new ≡ W.failures world.old + 1) }
    ensures log { OnOk result ((before : List Step) (step : Step) → W.log world.old ≡ Some (before ++ step ∷ [])
        → W.log world.new ≡ Some (before ++ with_outputs step (outputs_of outputs.now) ∷ [])) }
    ensures handed { W.handed world.new ≡ W.handed world.old }
    ensures over { W.over world.new ≡ W.over world.old }
    ensures keeps_rooms { W.keeps_rooms world.new ≡ W.keeps_rooms world.old }
    ensures hears_on { OnOk result (W.hears_idle_first world.old → W.hears_idle_first world.new) }
    // It moves on along these calls, which tell the outputs that were applied.
    ensures applies { OnOk result ((begun : W) (calls : List Call) (before : List Step) (step : Step)
        → Along (Moves W.moves W.hears_idle_first W.could_read W.heard_at W.looks (W.hears_idle_first begun)) begun calls world.old → told calls ≡ Some (before ++ step ∷ [])
        → AppliesTo W.moves W.hears_idle_first W.could_read W.heard_at W.looks AreWhole begun calls (before ++ with_outputs step (outputs_of outputs.now) ∷ [])
        world.new) }
    ensures applies_front { OnErr result ((begun : W) (calls : List Call) (before : List Step) (step : Step)
        → Along (Moves W.moves W.hears_idle_first W.could_read W.heard_at W.looks (W.hears_idle_first begun)) begun calls world.old → told calls ≡ Some (before ++ step ∷ [])
        → (done : List Put) × (more : List Put) × (outputs_of outputs.now ≡ done ++ more)
        × AppliesTo W.moves W.hears_idle_first W.could_read W.heard_at W.looks AreCutShort begun calls (before ++ with_outputs step done ∷ []) world.new) }
    // Some of the first were applied, and the one that failed isn't in the log.
    ensures front { OnErr result ((before : List Step) (step : Step) → W.log world.old ≡ Some (before ++ step ∷ [])
        → (done : List Put) × (more : List Put) × (outputs_of outputs.now ≡ done ++ more) × (W.log world.new ≡ Some (before ++ with_outputs step done ∷ []))) }
{
    for output in outputs {
        if let Err(fault) = world.apply(output) {
            return Err(fault);
        }
    }
    Ok(())
}

/// Takes an event of the world, and applies what is put out for it. The answer is whether the
/// client was closed. The rooms, which were those before it, are those behind it then.
fn take_event<W: World>(
    alloc: Global,
    gateway: &mut Gateway,
    world: &mut W,
    event: &Event,
    rooms: &mut Vec<(u32, usize)>,
) -> Result<bool, ServeFault>
    requires failures { W.failures world.old + 1 < 2 ^ 64 }
    requires stands { (setup : Setup) × StandsWithRooms setup gateway.old rooms.old.items }
    ensures calls { W.calls world.new ≡ W.calls world.old }
    ensures failures { OnOk result (W.failures world.new ≡ W.failures world.old) }
    ensures most_failures { W.failures world.new ≤ W.failures world.old + 1 }
    ensures stands { OnOk result ((setup : Setup) → StandsWithRooms setup gateway.old rooms.old.items → StandsWithRooms setup gateway.new rooms.new.items) }
    ensures world { IsErrOf result ServeFault.World → W.failures world.old < W.failures world.new }
    ensures log { IfOk result (λ closed. (setup : Setup) (before added : List Step) (run : List Move) (old : Option (List Handed))
        → W.log world.old ≡ Some (before ++ added ++ came event.now ∷ [])
        → Stands setup gateway.old (reverse added) run → has_closed added ≡ false → AreRooms (known_of setup (conducts run)) (tape_of run) rooms.old.items
        → AreAllHanded setup (length before) added old (W.handed world.old)
        → Serves setup closed (W.log world.new) gateway.new rooms.new.items old (W.handed world.new) before) }
    ensures front { IsErrOf result ServeFault.World → (setup : Setup) (before added : List Step) (run : List Move)
        → W.log world.old ≡ Some (before ++ added ++ came event.now ∷ [])
        → Stands setup gateway.old (reverse added) run → AddsFrontTo setup before (W.log world.new) }
    ensures refused { (peer : Peer) → IsErrOf result (ServeFault.NotAdmitted peer) → (W.log world.new ≡ W.log world.old) × (peer_of event.now ≡ peer)
        × ((setup : Setup) (log : List Step) (run : List Move) → Stands setup gateway.old log run
        → IsAdmitted (known_of setup (conducts run)) (tape_of run) (event_of event.now) → ⊥) }
    ensures memory { IsErrOf result ServeFault.Memory → (W.log world.new ≡ W.log world.old) × (W.failures world.new ≡ W.failures world.old) }
    ensures adds { OnErr result ((before : List Step) → W.log world.old ≡ Some (before ++ came event.now ∷ []) → (outputs : List Put)
        × (W.log world.new ≡ Some (before ++ with_outputs (came event.now) outputs ∷ []))) }
    ensures handed { W.handed world.new ≡ W.handed world.old }
    ensures over { W.over world.new ≡ W.over world.old }
    ensures keeps_rooms { W.keeps_rooms world.new ≡ W.keeps_rooms world.old }
    ensures runs { IfOk result (λ closed. (setup : Setup) (begun : W)
        → HasCome W.moves W.hears_idle_first W.could_read W.heard_at W.looks setup begun world.old gateway.old rooms.old.items event.now
        → Runs W.moves W.hears_idle_first W.could_read W.heard_at W.looks setup closed begun world.new gateway.new rooms.new.items) }
    ensures fails { IfErr result (λ fault. (setup : Setup) (begun : W)
        → HasCome W.moves W.hears_idle_first W.could_read W.heard_at W.looks setup begun world.old gateway.old rooms.old.items event.now
        → WasServed W.moves W.hears_idle_first W.could_read W.heard_at W.looks setup (Err fault) begun world.new) }
{
    if !gateway.admits(event) {
        return Err(ServeFault::NotAdmitted(whose(event)));
    }
    let mut outputs = Vec::new(alloc);
    if gateway.step(event, &mut outputs).is_err() {
        return Err(ServeFault::Memory);
    }
    if gateway.update_rooms(event, &outputs, rooms).is_err() {
        return Err(ServeFault::Memory);
    }
    match apply_all(world, &outputs) {
        Ok(()) => Ok(closes_client(&outputs)),
        Err(_) => Err(ServeFault::World),
    }
}

/// Takes a turn: asks the world what comes next, and takes the event if one does. The answer is how
/// serving ended, if it did.
pub fn take_turn<W: World>(
    alloc: Global,
    gateway: &mut Gateway,
    world: &mut W,
    rooms: &mut Vec<(u32, usize)>,
) -> Result<Option<ServiceEnd>, ServeFault>
    requires calls { W.calls world.old + 1 < 2 ^ 64 }
    requires failures { W.failures world.old + 1 < 2 ^ 64 }
    requires stands { (setup : Setup) × StandsWithRooms setup gateway.old rooms.old.items }
    ensures calls { W.calls world.new ≡ W.calls world.old + 1 }
    ensures failures { OnOk result (W.failures world.new ≡ W.failures world.old) }
    ensures most_failures { W.failures world.new ≤ W.failures world.old + 1 }
    ensures stands { OnOk result ((setup : Setup) → StandsWithRooms setup gateway.old rooms.old.items → StandsWithRooms setup gateway.new rooms.new.items) }
    ensures world { IsErrOf result ServeFault.World → W.failures world.old < W.failures world.new }
    ensures over { IfOk result (λ ended. SaysEnd ended (W.over world.new)) }
    ensures log { IfOk result (λ ended. (setup : Setup) (before : List Step) (old : Option (List Handed))
        → Serves setup false (W.log world.old) gateway.old rooms.old.items old (W.handed world.old) before
        → Serves setup (ends ended) (W.log world.new) gateway.new rooms.new.items old (W.handed world.new) before) }
    ensures front { IsErrOf result ServeFault.World → (setup : Setup) (before : List Step) (old : Option (List Handed))
        → Serves setup false (W.log world.old) gateway.old rooms.old.items old (W.handed world.old) before
        → AddsFrontTo setup before (W.log world.new) }
    ensures refused { (peer : Peer) → IsErrOf result (ServeFault.NotAdmitted peer) → (setup : Setup) (before : List Step) (old : Option (List Handed))
        → Serves setup false (W.log world.old) gateway.old rooms.old.items old (W.handed world.old) before
        → AddsRefusedTo setup peer before (W.log world.new) }
    ensures upstreams { W.keeps_rooms world.old ≡ true → (k : ℕ) → IsErrOf result (ServeFault.NotAdmitted (Peer.Upstream k)) → ⊥ }
    ensures keeps_rooms { W.keeps_rooms world.new ≡ W.keeps_rooms world.old }
    ensures memory { IsErrOf result ServeFault.Memory → (W.failures world.new ≡ W.failures world.old)
        × ((setup : Setup) (before : List Step) (old : Option (List Handed))
        → Serves setup false (W.log world.old) gateway.old rooms.old.items old (W.handed world.old) before
        → AddsUnansweredTo setup before (W.log world.new)) }
    ensures hands { OnErr result ((setup : Setup) (before : List Step) (old : Option (List Handed))
        → Serves setup false (W.log world.old) gateway.old rooms.old.items old (W.handed world.old) before
        → HandsTo setup before old (W.log world.new) (W.handed world.new)) }
    ensures calls_are { (setup : Setup) (begun : W) → Runs W.moves W.hears_idle_first W.could_read W.heard_at W.looks setup false begun world.old gateway.old rooms.old.items
        → TurnLeaves W.moves W.hears_idle_first W.could_read W.heard_at W.looks setup result begun world.new gateway.new rooms.new.items }
{
    match world.next(rooms, gateway.idle()) {
        Err(_) => Err(ServeFault::World),
        Ok(Next::Nothing) => Ok(None),
        Ok(Next::Over) => Ok(Some(ServiceEnd::Over)),
        Ok(Next::Happened(event)) => match take_event(alloc, gateway, world, &event, rooms) {
            Ok(true) => Ok(Some(ServiceEnd::Closed)),
            Ok(false) => Ok(None),
            Err(fault) => Err(fault),
        },
    }
}

/// Whether outputs close the client.
fn closes_client(outputs: &[Output]) -> bool
    ensures { result ≡ list_any (λ output. closes (output_of output)) outputs.now }
{
    outputs
        .iter()
        .any(|output| matches!(output, Output::CloseClient))
}

/// Serves a world for some turns with a new gateway. Each turn calls the world's `next` once, with
/// the open connections by rising number, each with how many octets of it may come in one event; an
/// event is taken, and what is put out for it is applied in order. That nothing comes as yet is a
/// turn too.
///
/// Of what that adds to a log that the world tells holds what `gateway::run` promises: the
/// headline, and that nothing is smuggled. `Closed` is answered just where the client was closed,
/// `Turns` only after all turns, and `Over` only where the world said so; `World` only where a call
/// of the world failed, and then what was added is a front of such a log, without the output that
/// failed; `NotAdmitted` only where an event came that may not, with whose it is, and of a world
/// that keeps to rooms never with an upstream, whether it tells its log or not; `Memory` puts out
/// nothing for the event that came last, and all that was added before it is such a log. The maxima
/// are at most 1,073,741,824, and there are at most 4,294,967,295 routes. Upstream connections are
/// kept or not, as the configuration says.
pub fn serve<W: World>(
    alloc: Global,
    config: &Config,
    world: &mut W,
    turns: u64,
) -> Result<ServiceEnd, ServeFault>
    requires servable { IsServable (setup_of config.now) }
    requires turns { W.calls world.old + turns < 2 ^ 64 }
    requires failures { W.failures world.old + 1 < 2 ^ 64 }
    ensures run { IfOk result (λ ended. AddsRun (setup_of config.now) ended (W.log world.old) (W.log world.new)) }
    ensures world { IsErrOf result ServeFault.World → W.failures world.old < W.failures world.new }
    ensures front { IsErrOf result ServeFault.World → AddsFront (setup_of config.now) (W.log world.old) (W.log world.new) }
    ensures refused { (peer : Peer) → IsErrOf result (ServeFault.NotAdmitted peer)
        → AddsRefused (setup_of config.now) peer (W.log world.old) (W.log world.new) }
    // An upstream is never why, of a world that keeps to rooms.
    ensures upstreams { W.keeps_rooms world.old ≡ true → (k : ℕ) → IsErrOf result (ServeFault.NotAdmitted (Peer.Upstream k)) → ⊥ }
    ensures memory { IsErrOf result ServeFault.Memory → (W.failures world.new ≡ W.failures world.old)
        × AddsUnanswered (setup_of config.now) (W.log world.old) (W.log world.new) }
    ensures failures { OnOk result (W.failures world.new ≡ W.failures world.old) }
    ensures calls { OnOk result (W.calls world.new ≤ W.calls world.old + turns) }
    // `next` isn't called once the client is closed, and what it was handed is right, whatever the
    // answer is.
    ensures hands { Hands (setup_of config.now) (W.log world.old) (W.handed world.old) (W.log world.new) (W.handed world.new) }
    ensures turns { IsOkAnd result (λ ended. ended ≡ ServiceEnd.Turns) → W.calls world.new ≡ W.calls world.old + turns }
    ensures over { IsOkAnd result (λ ended. ended ≡ ServiceEnd.Over) → W.over world.new ≡ true }
    // Whether the world tells a log or not: there are calls along which it moved, and of the log
    // that these tell the same holds. A call failed just where that is answered, as the last one.
    ensures calls_are { WasServed W.moves W.hears_idle_first W.could_read W.heard_at W.looks (setup_of config.now) result world.old world.new }
{
    let Ok(mut service) = Service::new(alloc, config) else {
        return Err(ServeFault::Memory);
    };
    serve_turns(&mut service, world, turns)
}

/// Serves a world by turns of a service that took none yet. That one is lent keeps it out of the
/// many ways in which this ends.
fn serve_turns<W: World>(
    service: &mut Service,
    world: &mut W,
    turns: u64,
) -> Result<ServiceEnd, ServeFault>
    requires begins { service.old.outcome ≡ None }
    requires turns { W.calls world.old + turns < 2 ^ 64 }
    requires failures { W.failures world.old + 1 < 2 ^ 64 }
    ensures run { IfOk result (λ ended. (setup : Setup) → Begins setup service.old → AddsRun setup ended (W.log world.old) (W.log world.new)) }
    ensures world { IsErrOf result ServeFault.World → W.failures world.old < W.failures world.new }
    ensures front { IsErrOf result ServeFault.World → (setup : Setup) → Begins setup service.old → AddsFront setup (W.log world.old) (W.log world.new) }
    ensures refused { (peer : Peer) → IsErrOf result (ServeFault.NotAdmitted peer) → (setup : Setup) → Begins setup service.old
        → AddsRefused setup peer (W.log world.old) (W.log world.new) }
    ensures upstreams { W.keeps_rooms world.old ≡ true → (k : ℕ) → IsErrOf result (ServeFault.NotAdmitted (Peer.Upstream k)) → ⊥ }
    ensures memory { IsErrOf result ServeFault.Memory → (W.failures world.new ≡ W.failures world.old)
        × ((setup : Setup) → Begins setup service.old → AddsUnanswered setup (W.log world.old) (W.log world.new)) }
    ensures failures { OnOk result (W.failures world.new ≡ W.failures world.old) }
    ensures calls { OnOk result (W.calls world.new ≤ W.calls world.old + turns) }
    ensures hands { (setup : Setup) → Begins setup service.old → Hands setup (W.log world.old) (W.handed world.old) (W.log world.new) (W.handed world.new) }
    ensures turns { IsOkAnd result (λ ended. ended ≡ ServiceEnd.Turns) → W.calls world.new ≡ W.calls world.old + turns }
    ensures over { IsOkAnd result (λ ended. ended ≡ ServiceEnd.Over) → W.over world.new ≡ true }
    ensures calls_are { (setup : Setup) → Begins setup service.old → WasServed W.moves W.hears_idle_first W.could_read W.heard_at W.looks setup result world.old world.new }
{
    for _turn in 0..turns {
        match service.take_turn(world) {
            Ok(None) => {}
            Ok(Some(ended)) => return Ok(ended),
            Err(fault) => return Err(fault),
        }
    }
    Ok(ServiceEnd::Turns)
}
