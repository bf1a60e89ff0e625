//! How long a client is left.

ghost use Rattle.std.specs.Prelude.{◌≡◌, ◌<◌, IfSome, IfNone};
ghost use Rattle.std.specs.Duration.{as_nanos};
ghost use Rattle.sockets.specs.Leaving.{time_left, waits};

use std::time::{Duration, Instant};

/// So many seconds the socket of a client that is left may take nothing of what waits for it.
const TO_TAKE: u64 = 60;

/// Once all was written, so many seconds it may be silent, and so many its end may take in all.
const TO_SPEAK: u64 = 5;

const TO_END: u64 = 30;

/// A client that is being left.
#[derive(Drop)]
pub struct Leaving {
    /// How many octets wait for it.
    waiting: usize,
    /// When its socket last took some, or it began to be left.
    taken: Instant,
    /// When something last came of it, or its socket took some.
    heard: Instant,
}

impl Leaving {
    /// A client begins to be left now, for which so many octets wait.
    pub fn begin(now: Instant, waiting: usize) -> Leaving
        ensures { result ≡ record { waiting = waiting; taken = now; heard = now } }
    {
        Leaving {
            waiting,
            taken: now,
            heard: now,
        }
    }

    /// Notes how many octets wait for it now.
    pub fn note_waiting(&mut self, now: Instant, waiting: usize)
        ensures { self.new ≡ waits now waiting self.old }
    {
        if waiting < self.waiting {
            self.taken = now;
            self.heard = now;
        }
        self.waiting = waiting;
    }

    /// Notes that something came of it now.
    pub fn note_heard(&mut self, now: Instant)
        ensures { self.new ≡ record self.old { heard = now } }
    {
        self.heard = now;
    }

    /// How long it is waited for yet, if it is.
    pub fn remaining(&self, now: Instant) -> Option<Duration>
        ensures left { IfSome result (λ most. as_nanos most ≡ time_left now self.now) }
        ensures some { IfSome result (λ _. 0 < time_left now self.now) }
        ensures over { IfNone result (time_left now self.now ≡ 0) }
    {
        let since_taken = now.duration_since(self.taken);
        let remaining = if self.waiting > 0 {
            Duration::from_secs(TO_TAKE).saturating_sub(since_taken)
        } else {
            let silent = now.duration_since(self.heard);
            Duration::from_secs(TO_SPEAK)
                .saturating_sub(silent)
                .min(Duration::from_secs(TO_END).saturating_sub(since_taken))
        };
        if remaining.is_zero() {
            None
        } else {
            Some(remaining)
        }
    }
}
