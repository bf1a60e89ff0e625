//! Whose turn is next.

ghost use Rattle.std.specs.Prelude.{◌≡◌};
ghost use Rattle.theory_errors.specs.Judging.{window_in};
ghost use Rattle.theory_errors.specs.Rows.{find as kept_of};
ghost use Rattle.model.specs.Turns.{IsNextTurn};
ghost use Rattle.theory_responses.specs.State.{are_open, is_ready, ready};
ghost use Rattle.send_queue.specs.Places.{AreRising};
ghost use Rattle.send_queue.specs.Asked.{windows_over, first_ready};

use crate::kept::Kept;
use crate::places::count_upto;
use streams::StreamTable;

/// A stream's sending window, in octets, perhaps below zero (RFC 9113, sections 6.9.1 and 6.9.2).
fn window_of(streams: &StreamTable, first_size: u32, id: u32) -> i64
    ensures { result ≡ window_in first_size (kept_of streams.now id) }
{
    match streams.find(id) {
        Some(live) => i64::from(first_size) + live.balance(),
        None => i64::from(first_size),
    }
}

/// Whether DATA may go on a stream: its window and that of the connection are above zero (RFC 9113, section 6.9.1).
pub fn are_open(streams: &StreamTable, first_size: u32, shared: i64, id: u32) -> bool
    ensures { result ≡ are_open (windows_over streams.now first_size shared) id }
{
    if shared <= 0 {
        return false;
    }
    window_of(streams, first_size, id) > 0
}

/// The first stream of which something can go.
fn first_ready(kept: &[Kept], streams: &StreamTable, first_size: u32, shared: i64) -> Option<u32>
    ensures { result ≡ first_ready (windows_over streams.now first_size shared) kept.now }
{
    for stream in kept {
        if stream.is_ready(streams, first_size, shared) {
            return Some(stream.id());
        }
    }
    None
}

/// The stream that has the next turn behind that of the last: each in turn, by rising ids.
pub fn next_of(
    kept: &[Kept],
    last: u32,
    streams: &StreamTable,
    first_size: u32,
    shared: i64,
) -> Option<u32>
    requires { AreRising kept.now }
    ensures { IsNextTurn last (ready (windows_over streams.now first_size shared) (record { kept = kept.now; last = last })) result }
{
    let (upto, above) = kept.split_at(count_upto(kept, last));
    match first_ready(above, streams, first_size, shared) {
        Some(id) => Some(id),
        None => first_ready(upto, streams, first_size, shared),
    }
}
