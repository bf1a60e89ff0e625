//! The time of day, with which lines of the log begin.

ghost use Rattle.std.specs.Prelude.{◌≤ℤ◌, pos, IfSome};

use jiff::Timestamp;
use std::fmt;
use std::fmt::{Display, Formatter};
use std::time::Clock;

/// A time of day. It is written as RFC 3339 has it, of UTC and with milliseconds, as
/// `2026-12-01T08:37:15.123Z`, and as `-` where no clock told it.
#[derive(Clone, Copy, Debug, Drop)]
pub struct Stamp {
    time: Option<Timestamp>,
}

impl Stamp {
    /// The time that it is now.
    pub fn now(clock: &impl Clock) -> Stamp
        ensures { IfSome result.time (λ time. pos 0 ≤ℤ time.nanosecond) }
    {
        Stamp {
            time: Timestamp::now(clock).ok(),
        }
    }
}

impl Display for Stamp {
    fn fmt<W: fmt::Write>(&self, f: &mut Formatter<W>) -> fmt::Result {
        match self.time {
            Some(time) => write!(f, "{time:.3}"),
            None => f.write_str("-"),
        }
    }
}
