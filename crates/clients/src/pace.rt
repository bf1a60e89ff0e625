//! How long a round of turns takes, where other clients are there.

ghost use Rattle.std.specs.Prelude.{◌≡◌, ◌-◌, ◌≤◌, ◌↔◌, IsTrue, max, nat_lt, if◌then◌else◌};
ghost use Rattle.std.specs.Time.{instant_nanos};
ghost use Rattle.sockets.specs.Portions.{smaller_portion, larger_portion};

use sockets::Portion;
use std::time::Instant;

/// A round that took so many nanoseconds is over, whatever is left.
const SPAN: u128 = 1_000_000;

/// Where a turn took more nanoseconds, the client is read by a smaller portion.
const LONG: u128 = 500_000;

/// Where each turn took less, it is read by a larger one.
const SHORT: u128 = 125_000;

/// A round of turns that one client takes.
#[derive(Clone, Copy, Drop)]
pub struct Pace {
    begun: Instant,
    /// When its last turn ended.
    last: Instant,
    /// How many nanoseconds its longest turn took.
    longest: u128,
}

impl Pace {
    /// A round begins now.
    pub fn begin(now: Instant) -> Pace
        ensures { result ≡ record { begun = now; last = now; longest = 0 } }
    {
        Pace {
            begun: now,
            last: now,
            longest: 0,
        }
    }

    /// A turn of it ended now.
    pub fn note(&mut self, now: Instant)
        ensures { self.new ≡ record self.old { last = now; longest = max self.old.longest (instant_nanos now - instant_nanos self.old.last) } }
    {
        let took = now.duration_since(self.last).as_nanos();
        self.last = now;
        self.longest = self.longest.max(took);
    }

    /// Whether it took so long that the others have their turns.
    pub fn is_over(&self) -> bool
        ensures { IsTrue result ↔ (1_000_000 ≤ instant_nanos self.now.last - instant_nanos self.now.begun) }
    {
        self.last.duration_since(self.begun).as_nanos() >= SPAN
    }

    /// By how much the client is read in its next round, if it was read by a portion in this one.
    pub fn portion(&self, portion: Portion) -> Portion
        ensures { result ≡ (if nat_lt 500_000 self.now.longest then smaller_portion portion
            else if nat_lt self.now.longest 125_000 then larger_portion portion else portion) }
    {
        if self.longest > LONG {
            portion.smaller()
        } else if self.longest < SHORT {
            portion.larger()
        } else {
            portion
        }
    }
}
