//! Laws: what lies in a request is what a clause sees of it.

ghost use Rattle.std.specs.Prelude.{◌≡◌, ◌≤◌};
ghost use Rattle.h1_writer.specs.Sending.{held_back};
ghost use Rattle.request_buffer.specs.HeldInside.{octets_of, in_waiting, in_going};
ghost use Rattle.request_buffer.specs.declared.going.Going.TheInside.{Inside as GoingInside};
ghost use Rattle.request_buffer.specs.declared.going.Going.TheView.{view as going_seen};
ghost use Rattle.request_buffer.specs.declared.buffered_request.BufferedRequest.TheInside.{Inside as WaitingInside};
ghost use Rattle.request_buffer.specs.declared.buffered_request.BufferedRequest.TheView.{view as waiting_seen, invariant as IsSoundWaiting};

/// What lies in a request between calls is at most what a clause sees of it, and 18 octets of room
/// for the line of a chunk, which one that waits may have: each field is counted
/// (`specs/HeldInside`). So whoever bounds these bounds what is held.
pub fn what_is_held_is_seen()
    ensures waiting { (waiting : WaitingInside) → IsSoundWaiting waiting → in_waiting waiting ≤ octets_of (waiting_seen waiting) }
    ensures going { (going : GoingInside) → in_going going ≡ held_back (going_seen going) }
{}
