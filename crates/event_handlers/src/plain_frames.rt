//! Frames of the client that have no fragment of a header block: each is judged, and what the
//! judgement says is done (RFC 9113, sections 5.4 and 6).
//!
//! The part of a step performs (`refinement`) once what the frame calls for was sent. That is handed
//! up: an acknowledgement, the answer to a PING, or the reset of its stream.

mod doing;
mod taking;

pub use crate::plain_frames::taking::{Owed, TakenFrame, take_plain};
