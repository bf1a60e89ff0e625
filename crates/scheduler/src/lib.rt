//! Turns of the streams that are ready, so that none waits while another is served twice.
//!
//! [`Turn::next`] is a library call, on no path of the gateway: `send_queue` keeps turns with the
//! rest.
#![tactic(auto)]

ghost use Rattle.std.specs.Prelude.{length};
ghost use Rattle.model.specs.Turns.{IsNextTurn};
ghost use Rattle.scheduler.specs.Least.{IsLeastAbove};

/// The turns of streams, by rising ids and then from the least again.
pub struct Turn;

impl Turn {
    /// The stream whose turn is next behind that of `last`, the id of the stream that had the turn
    /// before, or 0: the least id of `ready` above it, else the least of all (this project's
    /// profile). There is none just where `ready` is empty. The ids may stand in any order.
    pub fn next(last: u32, ready: &[u32]) -> Option<u32>
        ensures { IsNextTurn last ready.now result }
    {
        match least_above(last, ready) {
            Some(id) => Some(id),
            None => ready.iter().copied().min(),
        }
    }
}

/// The least id above the last, if one is.
fn least_above(last: u32, ready: &[u32]) -> Option<u32>
    ensures { IsLeastAbove last ready.now (length ready.now) result }
{
    let mut least = None;
    for id in ready {
        if *id > last && least.is_none_or(|other| *id < other) {
            least = Some(*id);
        }
    }
    least
}
