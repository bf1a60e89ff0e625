//! Streams, and what is kept of requests on them, with ample memory.

use crate::streams_seen::BEGUN;
use std::alloc::AllocError;
use stream_state::{Kind, Verdict};
use streams::{Live, StreamTable};

mod changes;
mod courses;

/// Opens a stream where its HEADERS may, which its client has ended or not, and says whether they do.
fn open_if_idle(streams: &mut StreamTable, id: u32, ended: bool) -> Result<bool, AllocError> {
    match streams.verdict(false, id, Kind::Headers) {
        Verdict::Open => {
            streams.open(id, Live::opened(BEGUN, ended))?;
            Ok(true)
        }
        _ => Ok(false),
    }
}
