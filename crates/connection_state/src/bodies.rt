//! What octets of a body do to the request of an active stream.

ghost use Rattle.theory_errors.specs.Judging.{room_in};
ghost use Rattle.std.specs.Prelude.{◌≡◌, ◌&&◌, not, ℕ, List, [], ◌∷◌, length, option_map, is_some, pos, int_lt};
ghost use Rattle.model.specs.Frames.{protocol_error, flow_control_error, stream_closed};
ghost use Rattle.model.specs.Errors.{first_of};
ghost use Rattle.model.specs.Errors.Fault.{Stream};
ghost use Rattle.model.specs.FrameErrors.{fault_if};
ghost use Rattle.streams.specs.Courses.{is_malformed_with};
ghost use Rattle.streams.specs.Views.{outline_of};

use flow_control::Window;
use protocol::error_codes::{FLOW_CONTROL_ERROR, PROTOCOL_ERROR, STREAM_CLOSED};
use streams::{Course, Live};

/// The code of the error of an active stream that DATA is, if it is one (RFC 9113, sections 5.1,
/// 6.9.1 and 8.1.1): with a payload for which the stream has no room, where windows begin with so
/// many octets, behind its end, or with content that makes the request malformed.
pub fn body_code(live: &Live, own: u32, size: u32, count: u32, ends: bool) -> Option<u32>
    ensures { (octets : List ℕ) → length octets ≡ count → option_map Stream result
        ≡ first_of (fault_if (int_lt (room_in own live.now) (pos size)) (Stream flow_control_error) ∷ fault_if live.now.ended_by_client (Stream stream_closed)
        ∷ fault_if (is_malformed_with octets ends live.now.outline) (Stream protocol_error) ∷ []) }
{
    if i64::from(own) + live.room() < i64::from(size) {
        return Some(FLOW_CONTROL_ERROR);
    }
    if live.ended_by_client() {
        return Some(STREAM_CLOSED);
    }
    if live.course().is_malformed_with(count, ends) {
        return Some(PROTOCOL_ERROR);
    }
    None
}

/// Whether the gateway replies to a request itself from now on.
pub fn is_replied_now(before: Course, next: Course) -> bool
    ensures { result ≡ (not (is_some (outline_of before).cause) && is_some (outline_of next).cause) }
{
    before.reply.is_none() && next.reply.is_some()
}

/// Whether a payload of so many octets is larger than the room of a window (RFC 9113, section 6.9.1).
pub fn is_past_room(room: &Window, size: u32) -> bool
    ensures { result ≡ int_lt room.now (pos size) }
{
    room.left() < i64::from(size)
}
