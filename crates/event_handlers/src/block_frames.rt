//! Frames of the client with a fragment of a header block: each is judged, and what the judgement
//! says is done (RFC 9113, sections 4.3, 5.4 and 8.1).
//!
//! The part of a step performs (`refinement`): the frame's move comes in, and behind it goes the
//! reset of its stream, where that is owed. A request is due to its upstream then, once it is whole
//! or as it comes; the GOAWAY of the last stream that the connection may have is owed before that.

mod doing;
mod outlet;
mod taking;

pub use crate::block_frames::outlet::Outlet;
pub use crate::block_frames::taking::{BlockTaken, take_block};
