//! Which streams have something on offer.

ghost use Rattle.std.specs.Prelude.{◌≡◌, ◌<◌, ◌^◌, ◌+◌, true, false, []};
ghost use Rattle.send_queue.specs.Places.{AreRising, AreAllOffered, AreTold, IsAmong, IsToldBehind};

use crate::kept::Kept;
use crate::places::{count_below, count_upto};

/// How many streams have something on offer, and from which id up to which these are; where there
/// are some, the ids aren't of others alone.
#[derive(Clone, Copy)]
pub struct Offered {
    pub count: usize,
    pub low: u32,
    pub high: u32,
}

impl Offered {
    /// None has, where none is kept.
    pub fn none() -> Offered
        ensures { AreTold result [] }
    {
        Offered {
            count: 0,
            low: 0,
            high: 0,
        }
    }

    /// What is told once a stream has something on offer, or nothing, that had something, or nothing.
    pub fn behind(self, id: u32, had: bool, has: bool) -> Offered
        requires was { had ≡ true → IsAmong self id }
        requires counted { had ≡ true → 0 < self.count }
        requires room { self.count + 1 < 2 ^ 64 }
        ensures { IsToldBehind self id had has result }
    {
        match (had, has) {
            (false, true) => self.with(id),
            (true, false) => Offered {
                count: self.count - 1,
                ..self
            },
            _ => self,
        }
    }

    /// One stream more has something on offer.
    fn with(self, id: u32) -> Offered
        requires room { self.count + 1 < 2 ^ 64 }
        ensures { IsToldBehind self id false true result }
    {
        if self.count == 0 {
            return Offered {
                count: 1,
                low: id,
                high: id,
            };
        }
        Offered {
            count: self.count + 1,
            low: self.low.min(id),
            high: self.high.max(id),
        }
    }

    /// The streams among which all are that have something on offer: none where none has.
    pub fn among(self, kept: &[Kept]) -> &[Kept]
        requires rising { AreRising kept.now }
        requires told { AreTold self kept.now }
        ensures { AreAllOffered kept.now result.now }
    {
        if self.count == 0 {
            return &kept[..0];
        }
        let (_, from) = kept.split_at(count_below(kept, self.low));
        let (among, _) = from.split_at(count_upto(from, self.high));
        among
    }
}
