//! Worlds: where events come from, and where outputs go.

ghost use Rattle.std.specs.Prelude.{◌≡◌, ◌+◌, ◌<◌, ◌^◌, ◌∷◌, ◌++◌, [], ℕ, Bool, true, List, Option, Some, is_ok, IfOk, OnOk, OnErr, if◌then◌else◌};
ghost use Rattle.model.specs.Logs.{Step};
ghost use Rattle.effects.specs.Views.{output_of};
ghost use Rattle.driver.specs.Worlds.{Handed, AddsEvent, AddsHanded, SaysOver, KeepsRooms, with_outputs};
ghost use Rattle.driver.specs.Calls.{Call, HearsIdleFirst};
ghost use Rattle.driver.specs.Calls.Call.{Asked, Applied};

use effects::{Event, Output};
use std::alloc::{AllocError, AllocFailed};
use std::io;
use thiserror::Error;

/// A call of a world failed. Want of memory in a world is such a failure too.
#[derive(Clone, Copy, Debug, PartialEq, Eq, Drop, Error)]
#[error("a call of the world failed")]
pub struct WorldFault {}

impl From<AllocError> for WorldFault {
    fn from(_error: AllocError) -> WorldFault {
        WorldFault {}
    }
}

impl<T: Drop> From<AllocFailed<T>> for WorldFault {
    fn from(_error: AllocFailed<T>) -> WorldFault {
        WorldFault {}
    }
}

impl From<io::Error> for WorldFault {
    fn from(_error: io::Error) -> WorldFault {
        WorldFault {}
    }
}

/// What comes next.
#[derive(Drop)]
pub enum Next {
    /// An event.
    Happened(Event),
    /// Nothing as yet.
    Nothing,
    /// Nothing any more.
    Over,
}

/// Where events come from, and where outputs go. What it tells of itself is for contracts alone.
pub trait World {
    /// How often `next` was called.
    ghost calls: { Self → ℕ };

    /// How many calls failed.
    ghost failures: { Self → ℕ };

    /// Whether it said that nothing comes any more.
    ghost over: { Self → Bool };

    /// The events that came and what was put out for each, the oldest first, where a world stores
    /// them.
    ghost log: { Self → Option (List Step) };

    /// What each call of `next` was handed that didn't fail, the first one first, where a world
    /// stores it.
    ghost handed: { Self → Option (List Handed) };

    /// Whether what it gives of upstreams is of connections that have room for it, always.
    ghost keeps_rooms: { Self → Bool };

    /// How it moves by a call, with its answer.
    ghost moves: { Self → Call → Self → Type 0 };

    /// That it hears what is idle before the client, from here on.
    ghost hears_idle_first: { Self → Type 0 };

    /// Whether something could be read of a connection, by its own marks.
    ghost could_read: { Self → ℕ → Bool };

    /// How often it looked at all its sockets, and how often it had when octets of the client came
    /// last.
    ghost looks: { Self → ℕ };

    ghost heard_at: { Self → ℕ };

    /// What comes next. `rooms` are the numbers of the open connections to upstreams, each with the
    /// most octets of it that may come in one event, and `idle` the numbers of those that are idle:
    /// what one of these has to be read had better come before octets of the client, which may be a
    /// request that would go out on it.
    fn next(&mut self, rooms: &[(u32, usize)], idle: &[u32]) -> Result<Next, WorldFault>
        requires calls { calls self.old + 1 < 2 ^ 64 }
        requires failures { failures self.old + 1 < 2 ^ 64 }
        ensures calls { calls self.new ≡ calls self.old + 1 }
        ensures failures { failures self.new ≡ (if is_ok result then failures self.old else failures self.old + 1) }
        ensures over { IfOk result (λ next. SaysOver next (over self.new)) }
        ensures log { IfOk result (λ next. AddsEvent (log self.old) next (log self.new)) }
        ensures handed { OnOk result (AddsHanded (log self.old) (handed self.old) rooms.now idle.now (handed self.new)) }
        ensures err { OnErr result ((log self.new ≡ log self.old) × (handed self.new ≡ handed self.old)) }
        ensures rooms { keeps_rooms self.old ≡ true → IfOk result (λ next. KeepsRooms rooms.now next) }
        ensures keeps_rooms { keeps_rooms self.new ≡ keeps_rooms self.old }
        ensures moves { moves self.old (Asked rooms.now idle.now result) self.new }
        ensures idle_first { hears_idle_first self.old → IfOk result (λ next. HearsIdleFirst idle.now next (could_read self.new) (heard_at self.old)
            (heard_at self.new) (looks self.new)) }
        ensures hears_on { OnOk result (hears_idle_first self.old → hears_idle_first self.new) };

    /// Takes an output.
    fn apply(&mut self, output: &Output) -> Result<(), WorldFault>
        requires { failures self.old + 1 < 2 ^ 64 }
        ensures calls { calls self.new ≡ calls self.old }
        ensures failures { failures self.new ≡ (if is_ok result then failures self.old else failures self.old + 1) }
        ensures log { OnOk result ((before : List Step) (step : Step) → log self.old ≡ Some (before ++ step ∷ [])
            → log self.new ≡ Some (before ++ with_outputs step (output_of output.now ∷ []) ∷ [])) }
        ensures err { OnErr result (log self.new ≡ log self.old) }
        ensures handed { handed self.new ≡ handed self.old }
        ensures over { over self.new ≡ over self.old }
        ensures keeps_rooms { keeps_rooms self.new ≡ keeps_rooms self.old }
        ensures moves { moves self.old (Applied output.now result) self.new }
        ensures hears_on { OnOk result (hears_idle_first self.old → hears_idle_first self.new) };
}
