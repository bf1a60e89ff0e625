//! Frames of responses: header blocks and octets of bodies.

ghost use Rattle.std.specs.Prelude.{◌≡◌, ◌+◌, ◌<◌, ◌≤◌, ◌++◌, length, OnOk, if◌then◌else◌};
ghost use Rattle.model.specs.Frames.{spell};
ghost use Rattle.model.specs.Logs.Output.{ToClient};
ghost use Rattle.model.specs.Tapes.{put};
ghost use Rattle.effects.specs.Sent.{data_frame, put_frames};
ghost use Rattle.effects.specs.Blocks.{frames_of, filled_before, block_frames};

use crate::outputs::Outputs;
use frames::View;
use protocol::flags::{END_HEADERS, END_STREAM};
use protocol::frame_types::{CONTINUATION, DATA, HEADERS};
use protocol::limits::LONGEST_PAYLOAD;
use std::alloc::AllocError;

/// END_STREAM or nothing.
fn end_flag(ends: bool) -> u8
    ensures { result ≡ (if ends then 1 else 0) }
{
    if ends { END_STREAM } else { 0 }
}

/// Puts the frames of a header block out: HEADERS with these flags, and CONTINUATION for what it has no room for.
fn put_block(out: &mut Outputs, stream: u32, flags: u8, block: &[u8]) -> Result<(), AllocError>
    requires stream { stream < 2147483648 }
    requires flags { flags ≤ 1 }
    ensures { OnOk result (out.new ≡ put_frames out.old (frames_of (filled_before block.now) 1 flags stream block.now)) }
{
    let mut view = View {
        kind: HEADERS,
        flags,
        id: stream,
        payload: block,
    };
    while view.payload.len() > LONGEST_PAYLOAD {
        let (payload, rest) = view.payload.split_at(LONGEST_PAYLOAD);
        out.send(&View { payload, ..view })?;
        view = View {
            kind: CONTINUATION,
            flags: 0,
            id: stream,
            payload: rest,
        };
    }
    view.flags += END_HEADERS;
    out.send(&view)
}

/// Frames of responses (RFC 9113, sections 6.1, 6.2 and 6.10). An `Err` says that memory was refused.
impl Outputs {
    /// Puts octets of a body out, at most 16,384 in two parts and without padding, which end the
    /// stream or don't (RFC 9113, section 6.1).
    pub fn send_data(
        &mut self,
        stream: u32,
        front: &[u8],
        back: &[u8],
        ends: bool,
    ) -> Result<(), AllocError>
        requires stream { stream < 2147483648 }
        requires octets { length (front.now ++ back.now) ≤ 16384 }
        ensures { OnOk result (self.new ≡ put self.old (ToClient (spell (data_frame stream ends (front.now ++ back.now))))) }
    {
        let view = View {
            kind: DATA,
            flags: end_flag(ends),
            id: stream,
            payload: front,
        };
        self.send_joined(&view, back)
    }

    /// Puts a whole header block out, which ends the stream or doesn't: HEADERS, and CONTINUATION
    /// for what it has no room for (RFC 9113, sections 6.2 and 6.10). Each frame but the last has
    /// 16,384 octets of the block.
    pub fn send_block(&mut self, stream: u32, block: &[u8], ends: bool) -> Result<(), AllocError>
        requires { stream < 2147483648 }
        ensures { OnOk result (self.new ≡ put_frames self.old (block_frames stream ends block.now)) }
    {
        put_block(self, stream, end_flag(ends), block)
    }
}
