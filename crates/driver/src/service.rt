//! A gateway that serves a world, turn by turn.

ghost use Rattle.std.specs.Prelude.{◌≡◌, ◌+◌, ◌<◌, ◌≤◌, ◌^◌, ℕ, List, Option, Some, None, Result, Err, true, false, unwrap_or, IsErrOf, OnOk, OnErr, IfOk};
ghost use Rattle.model.specs.Logs.{Step};
ghost use Rattle.model.specs.Setup.{Setup};
ghost use Rattle.gateway.specs.Setups.{setup_of, IsServable};
ghost use Rattle.theory_errors.specs.Rule.{known_of};
ghost use Rattle.theory.specs.Moves.{Move};
ghost use Rattle.theory.specs.State.{conducts, tape_of};
ghost use Rattle.gateway.specs.Rooms.{AreAllIdle};
ghost use Rattle.gateway.specs.Stands.{Stands, opened_in};
ghost use Rattle.driver.specs.Worlds.{Handed, AddsPromised, AddsFrontTo, AddsRefusedTo, AddsUnansweredTo, HandsTo, SaysEnd, ends};
ghost use Rattle.driver.specs.Services.{Begins, Goes, turn_of, outcome_of};
ghost use Rattle.driver.specs.Calls.{Runs, TurnLeaves};

use crate::services::{Peer, ServeFault, ServiceEnd, take_turn};
use crate::world::World;
use gateway::{Config, Gateway};
use std::alloc::{AllocError, Global};
use std::marker::Model;

/// A gateway that serves a world: it is lent that for each turn, and in between others may take
/// theirs, of worlds of their own.
#[derive(Drop)]
pub struct Service {
    alloc: Global,
    gateway: Gateway,
    /// The open connections to upstreams by rising number, each with how many octets of it may come
    /// in one event.
    rooms: Vec<(u32, usize)>,
    /// How it ended, once it has.
    outcome: Option<Result<ServiceEnd, ServeFault>>,
}

impl Model for Service {
    ghost use Rattle.std.specs.Prelude.{◌≡◌, None};
    ghost use Rattle.model.specs.Setup.{Setup};
    ghost use Rattle.driver.specs.Worlds.{StandsWithRooms};
    ghost use Rattle.driver.specs.Services.{Served};

    ghost Value = { Served };

    ghost view = { λ service. record { gateway = service.gateway; rooms = service.rooms.items; outcome = service.outcome } };

    // Until it has ended its gateway stands for some log, and its rooms are those behind that.
    ghost invariant = { λ service. service.outcome ≡ None → (setup : Setup) × StandsWithRooms setup service.gateway service.rooms.items };
}

impl Service {
    /// A service that took no turn yet. The maxima of the configuration are at most 1,073,741,824,
    /// and there are at most 4,294,967,295 routes. Upstream connections are kept or not, as it
    /// says. An `Err` says that memory was refused.
    pub fn new(alloc: Global, config: &Config) -> Result<Service, AllocError>
        requires { IsServable (setup_of config.now) }
        ensures { IfOk result (Begins (setup_of config.now)) }
    {
        Ok(Service {
            alloc,
            gateway: Gateway::new(alloc, config)?,
            rooms: Vec::new(alloc),
            outcome: None,
        })
    }

    /// How many streams the client opened so far, whatever became of them (RFC 9113, section 5.1):
    /// at most 10,000.
    pub fn opened(&self) -> u32
        ensures { result ≡ opened_in self.now.gateway }
    {
        self.gateway.opened()
    }

    /// The numbers of the connections to upstreams that are idle: none once the client is closed, or
    /// memory was refused.
    pub fn idle(&self) -> &[u32]
        // They are those that the log tells that its gateway stands for.
        ensures { (setup : Setup) (log : List Step) (run : List Move) → Stands setup self.now.gateway log run
            → AreAllIdle (known_of setup (conducts run)) (tape_of run) result.now }
    {
        self.gateway.idle()
    }

    /// Takes a turn: asks the world what comes next, and takes the event if one does; what is put
    /// out for it is applied in order. The answer is how serving ended, if it did: as `serve` says
    /// it, but that turns are over. Once it has ended, each further turn answers the same, and
    /// leaves the world alone.
    ///
    /// Where the service stood for what was added to a log that the world tells (`Goes`, as it does
    /// for nothing at first), it does so behind the turn, and what is promised holds of all that
    /// was added by then (`promised`); behind a fault that is so of what stands before it, as
    /// `serve` says.
    pub fn take_turn<W: World>(&mut self, world: &mut W) -> Result<Option<ServiceEnd>, ServeFault>
        requires calls { W.calls world.old + 1 < 2 ^ 64 }
        requires failures { W.failures world.old + 1 < 2 ^ 64 }
        ensures ended { (outcome : Result ServiceEnd ServeFault) → self.old.outcome ≡ Some outcome → (result ≡ turn_of outcome) × (self.new ≡ self.old)
            × (world.new ≡ world.old) }
        ensures outcome { self.new.outcome ≡ outcome_of result }
        ensures calls { self.old.outcome ≡ None → W.calls world.new ≡ W.calls world.old + 1 }
        ensures most_calls { W.calls world.new ≤ W.calls world.old + 1 }
        ensures failures { OnOk result (W.failures world.new ≡ W.failures world.old) }
        ensures most_failures { W.failures world.new ≤ W.failures world.old + 1 }
        ensures over { self.old.outcome ≡ None → IfOk result (λ ended. SaysEnd ended (W.over world.new)) }
        ensures keeps_rooms { W.keeps_rooms world.new ≡ W.keeps_rooms world.old }
        ensures log { self.old.outcome ≡ None → IfOk result (λ ended. (setup : Setup) (before : List Step) (earlier : Option (List Handed))
            → Goes setup false self.old (W.log world.old) (W.handed world.old) before earlier
            → Goes setup (ends ended) self.new (W.log world.new) (W.handed world.new) before earlier) }
        ensures promised { self.old.outcome ≡ None → IfOk result (λ ended. (setup : Setup) (before : List Step) (earlier : Option (List Handed))
            → Goes setup false self.old (W.log world.old) (W.handed world.old) before earlier
            → AddsPromised setup (ends ended) before (W.log world.new)) }
        // Behind a fault, which is one of the world only where a call of it failed.
        ensures world { self.old.outcome ≡ None → IsErrOf result ServeFault.World → W.failures world.old < W.failures world.new }
        ensures front { self.old.outcome ≡ None → IsErrOf result ServeFault.World → (setup : Setup) (before : List Step) (earlier : Option (List Handed))
            → Goes setup false self.old (W.log world.old) (W.handed world.old) before earlier
            → AddsFrontTo setup before (W.log world.new) }
        ensures refused { self.old.outcome ≡ None → (peer : Peer) → IsErrOf result (ServeFault.NotAdmitted peer)
            → (setup : Setup) (before : List Step) (earlier : Option (List Handed))
            → Goes setup false self.old (W.log world.old) (W.handed world.old) before earlier
            → AddsRefusedTo setup peer before (W.log world.new) }
        ensures upstreams { self.old.outcome ≡ None → W.keeps_rooms world.old ≡ true → (k : ℕ) → IsErrOf result (ServeFault.NotAdmitted (Peer.Upstream k)) → ⊥ }
        ensures memory { self.old.outcome ≡ None → IsErrOf result ServeFault.Memory → (W.failures world.new ≡ W.failures world.old)
            × ((setup : Setup) (before : List Step) (earlier : Option (List Handed))
            → Goes setup false self.old (W.log world.old) (W.handed world.old) before earlier
            → AddsUnansweredTo setup before (W.log world.new)) }
        ensures hands { self.old.outcome ≡ None → OnErr result ((setup : Setup) (before : List Step) (earlier : Option (List Handed))
            → Goes setup false self.old (W.log world.old) (W.handed world.old) before earlier
            → HandsTo setup before earlier (W.log world.new) (W.handed world.new)) }
        // Whether the world tells a log or not: what the service stood for by calls along which it
        // moved, it does so still, and a fault is one of these.
        ensures calls_are { self.old.outcome ≡ None → (setup : Setup) (begun : W)
            → Runs W.moves W.hears_idle_first W.could_read W.heard_at W.looks setup false begun world.old self.old.gateway self.old.rooms
            → TurnLeaves W.moves W.hears_idle_first W.could_read W.heard_at W.looks setup result begun world.new self.new.gateway self.new.rooms }
    {
        match self.outcome {
            Some(outcome) => outcome.map(Some),
            None => {
                let turn = take_turn(self.alloc, &mut self.gateway, world, &mut self.rooms);
                self.outcome = turn.transpose();
                turn
            }
        }
    }

    /// Notes that its world failed between two turns: with that serving it ended, unless it had
    /// before.
    pub fn fail(&mut self)
        ensures { self.new ≡ record self.old { outcome = Some (unwrap_or self.old.outcome (Err ServeFault.World)) } }
    {
        if self.outcome.is_none() {
            self.outcome = Some(Err(ServeFault::World));
        }
    }
}
