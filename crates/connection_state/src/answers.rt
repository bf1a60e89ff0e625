//! What comes of a frame.

use header_blocks::Field;
use local_replies::Cause;
use request_rules::RequestHead;
use settings::Change;

/// What a frame is answered with that isn't as it should be (RFC 9113, section 5.4).
#[derive(Clone, Copy, Debug, PartialEq, Eq)]
pub enum FrameError {
    /// The connection ends with GOAWAY and this code (RFC 9113, sections 5.4.1 and 7).
    Connection(u32),
    /// The frame's stream ends with RST_STREAM and this code (RFC 9113, sections 5.4.2 and 7).
    Stream(u32),
    /// Nothing comes of it, but that the octets of DATA are given back.
    Discarded,
}

/// What comes of a frame that has no fragment of a header block.
#[derive(Clone, Copy, Debug, PartialEq, Eq)]
pub enum Judged<'a> {
    /// It isn't as it should be.
    Failed(FrameError),
    /// Nothing is to be done: PRIORITY, GOAWAY, an acknowledgement, or a type that isn't known.
    Ignored,
    /// Settings were taken, and are to be acknowledged (RFC 9113, section 6.5.3).
    Settings(Change),
    /// These eight octets are to be sent back (RFC 9113, section 6.7).
    Ping(&'a [u8]),
    /// The window of the connection or of its stream grew (RFC 9113, section 6.9).
    Granted,
    /// The client reset an active stream (RFC 9113, section 6.4).
    Reset,
    /// These octets of the body came on an active stream, and end its request or don't (RFC 9113, section 6.1).
    Content(&'a [u8], bool),
    /// The body on an active stream became longer than is taken, so that the gateway replies
    /// itself: 413 (RFC 9110, section 15.5.14).
    LargeBody,
}

/// What comes of a frame that has a fragment of a header block.
#[derive(Drop)]
pub enum BlockJudged {
    /// It isn't as it should be.
    Failed(FrameError),
    /// Its block goes on with the next frame.
    GoesOn,
    /// A request begins: what its head says, and the place of its route, from 0.
    Begins { head: RequestHead, route: u32 },
    /// The gateway answers the request itself from now on.
    Answered(Cause),
    /// Trailers end the request, of which these are passed on.
    Trailers(Vec<Field>),
    /// Its block was read, and nothing comes of it: nothing more of the request is looked at.
    Ignored,
}
