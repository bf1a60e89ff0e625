//! What a frame's payload says.

ghost use Rattle.std.specs.Prelude.{◌≡◌, ◌+◌, ◌<◌, ◌≤◌, length, IfOk, IfErr, Some, None};
ghost use Rattle.model.specs.Frames.{is_padded, content_offset, pad_length, content};
ghost use Rattle.model.specs.Payloads.{is_sized, is_over_padded, payload_fault, number_field};
ghost use Rattle.frames.specs.Parts.{parts_of};
ghost use Rattle.frames.specs.Views.{frame_of};
ghost use Rattle.frames.specs.Parsed.{parts_in, fault_of, Says};

use crate::flags::has_flag;
use crate::parts::{Frame, FrameFault};
use crate::views::View;
use protocol::flags::{ACK, PADDED, PRIORITY_FLAG, RESERVED_BIT};
use protocol::frame_types::{
    CONTINUATION, DATA, GOAWAY, HEADERS, PING, PRIORITY, RST_STREAM, SETTINGS, WINDOW_UPDATE,
};
use protocol::lengths;

/// What the frame's payload says, by its type and flags (RFC 9113, section 6), without padding,
/// priority octets and reserved bits. Octets are slices of the payload. Flags that the type doesn't
/// define are ignored, and what padding consists of isn't looked at. Each type of which the parts
/// are used has its own variant, and all others have `Other`.
///
/// `Size` comes just where the payload's length isn't one that the type and flags allow; else
/// `Protocol` comes just where its padding is longer than what is left for it.
pub fn parse(view: View<'_>) -> Result<Frame<'_>, FrameFault>
    ensures ok { IfOk result (λ frame. parts_in frame ≡ parts_of (frame_of view.entry)) }
    ensures says { IfOk result (λ frame. Says frame (frame_of view.entry)) }
    ensures faultless { IfOk result (λ frame. payload_fault (frame_of view.entry) ≡ None) }
    ensures refused { IfErr result (λ fault. payload_fault (frame_of view.entry) ≡ Some (fault_of fault)) }
{
    if !is_sized(view) {
        return Err(FrameFault::Size);
    }
    if is_over_padded(view) {
        return Err(FrameFault::Protocol);
    }
    Ok(parts_of(view))
}

/// Whether the payload has a length that its type and flags allow.
fn is_sized(view: View<'_>) -> bool
    ensures { result ≡ is_sized (frame_of view.entry) }
{
    let length = view.payload.len();
    match view.kind {
        DATA | HEADERS => length >= content_offset(view),
        PRIORITY => length == lengths::PRIORITY,
        RST_STREAM => length == lengths::RST_STREAM,
        WINDOW_UPDATE => length == lengths::WINDOW_UPDATE,
        SETTINGS => length % lengths::SETTING == 0 && (!has_flag(view, ACK) || length == 0),
        PING => length == lengths::PING,
        GOAWAY => length >= lengths::GOAWAY,
        _ => true,
    }
}

/// Whether the padding is longer than what is left for it, where there is room for the octets before the content.
fn is_over_padded(view: View<'_>) -> bool
    requires { content_offset (frame_of view) ≤ length view.payload.now }
    ensures { result ≡ is_over_padded (frame_of view.entry) }
{
    view.payload.len() - content_offset(view) < pad_length(view)
}

/// What the payload says, where it has no fault.
fn parts_of(view: View<'_>) -> Frame<'_>
    requires { payload_fault (frame_of view) ≡ None }
    ensures parts { parts_in result ≡ parts_of (frame_of view.entry) }
    ensures says { Says result (frame_of view.entry) }
{
    match view.kind {
        DATA => Frame::Data(content(view)),
        HEADERS => Frame::Headers(content(view)),
        RST_STREAM => Frame::RstStream(number(view.payload)),
        SETTINGS => Frame::Settings(view.payload),
        PING => Frame::Ping(view.payload),
        WINDOW_UPDATE => Frame::WindowUpdate(number(view.payload) % RESERVED_BIT),
        CONTINUATION => Frame::Continuation(view.payload),
        _ => Frame::Other,
    }
}

/// Whether the frame begins with a pad length and ends with padding.
fn is_padded(view: View<'_>) -> bool
    ensures { result ≡ is_padded (frame_of view.entry) }
{
    (view.kind == DATA || view.kind == HEADERS) && has_flag(view, PADDED)
}

/// How many octets stand before the content.
fn content_offset(view: View<'_>) -> usize
    ensures { result ≡ content_offset (frame_of view.entry) }
{
    let pad_length = if is_padded(view) {
        lengths::PAD_LENGTH
    } else {
        0
    };
    let priority = if view.kind == HEADERS && has_flag(view, PRIORITY_FLAG) {
        lengths::PRIORITY
    } else {
        0
    };
    pad_length + priority
}

/// How many octets of padding stand behind the content.
fn pad_length(view: View<'_>) -> usize
    requires { content_offset (frame_of view) ≤ length view.payload.now }
    ensures { result ≡ pad_length (frame_of view.entry) }
{
    if is_padded(view) {
        view.payload[0] as usize
    } else {
        0
    }
}

/// The data of DATA, or the fragment of HEADERS.
fn content(view: View<'_>) -> &[u8]
    requires { content_offset (frame_of view) + pad_length (frame_of view) ≤ length view.payload.now }
    ensures { result.now ≡ content (frame_of view.entry) }
{
    let payload = view.payload;
    &payload[content_offset(view)..payload.len() - pad_length(view)]
}

/// The number in four octets.
fn number(octets: &[u8]) -> u32
    requires { length octets.now ≡ 4 }
    ensures { result ≡ number_field octets.now }
{
    16777216 * octets[0] as u32
        + 65536 * octets[1] as u32
        + 256 * octets[2] as u32
        + octets[3] as u32
}
