//! What the type, the flags and the stream's number of a frame say.

ghost use Rattle.std.specs.Prelude.{◌≡◌, ◌<◌};
ghost use Rattle.model.specs.Frames.{has_flag, is_ack, ends_stream, ends_headers};
ghost use Rattle.model.specs.WindowsOnTape.{has_settings};
ghost use Rattle.model.specs.FrameErrors.{is_misplaced};
ghost use Rattle.frames.specs.Views.{frame_of};

use crate::views::View;
use protocol::flags::{ACK, END_HEADERS, END_STREAM};
use protocol::frame_types::{
    CONTINUATION, DATA, GOAWAY, HEADERS, PING, PRIORITY, PUSH_PROMISE, RST_STREAM, SETTINGS,
};

/// Whether a flag is set, by the value of its bit.
pub(crate) fn has_flag(view: View<'_>, flag: u8) -> bool
    requires { 0 < flag }
    ensures { result ≡ has_flag flag (frame_of view.entry) }
{
    view.flags / flag % 2 == 1
}

/// Whether the frame is an acknowledgement: SETTINGS or PING with the flag ACK (RFC 9113, sections
/// 6.5 and 6.7). The flags of any other type aren't looked at.
pub fn is_ack(view: View<'_>) -> bool
    ensures { result ≡ is_ack (frame_of view.entry) }
{
    (view.kind == SETTINGS || view.kind == PING) && has_flag(view, ACK)
}

/// Whether the frame ends its stream: DATA or HEADERS with the flag END_STREAM (RFC 9113, sections
/// 6.1 and 6.2). The flags of any other type aren't looked at.
pub fn ends_stream(view: View<'_>) -> bool
    ensures { result ≡ ends_stream (frame_of view.entry) }
{
    (view.kind == DATA || view.kind == HEADERS) && has_flag(view, END_STREAM)
}

/// Whether the frame ends its header block: HEADERS or CONTINUATION with the flag END_HEADERS (RFC
/// 9113, sections 6.2 and 6.10). The flags of any other type aren't looked at.
pub fn ends_headers(view: View<'_>) -> bool
    ensures { result ≡ ends_headers (frame_of view.entry) }
{
    (view.kind == HEADERS || view.kind == CONTINUATION) && has_flag(view, END_HEADERS)
}

/// Whether the frame has settings: SETTINGS that is no acknowledgement (RFC 9113, section 6.5),
/// perhaps without entries.
pub fn has_settings(view: View<'_>) -> bool
    ensures { result ≡ has_settings (frame_of view.entry) }
{
    view.kind == SETTINGS && !has_flag(view, ACK)
}

/// Whether the frame stands where none of its type may come from a client: a frame of a stream on 0, one of the whole
/// connection on a stream (RFC 9113, sections 6.1 to 6.8), HEADERS on an even number (section 5.1.1), or PUSH_PROMISE
/// (section 8.4). WINDOW_UPDATE, CONTINUATION and types that aren't known may stand anywhere as far as this says.
pub fn is_misplaced(view: View<'_>) -> bool
    ensures { result ≡ is_misplaced (frame_of view.entry) }
{
    match view.kind {
        DATA | PRIORITY | RST_STREAM => view.id == 0,
        HEADERS => view.id % 2 == 0,
        SETTINGS | PING | GOAWAY => view.id != 0,
        PUSH_PROMISE => true,
        _ => false,
    }
}
