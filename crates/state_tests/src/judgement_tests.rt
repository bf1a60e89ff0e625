//! Frames of a client as they are judged, and what goes out behind them.

use connection_state::Connection;
use std::alloc::AllocError;
use stream_state::{Kind, Verdict};
use streams::{Course, Live};

mod blocks;
mod bodies;
mod plain;
mod sending;

/// Opens a stream where HEADERS may, with a request of this course, which its client has ended or
/// not, and says whether they may.
fn open_if_idle(
    connection: &mut Connection,
    id: u32,
    course: Course,
    ended: bool,
) -> Result<bool, AllocError> {
    match connection.verdict(id, Kind::Headers) {
        Verdict::Open => {
            connection.open(id, Live::opened(course, ended))?;
            Ok(true)
        }
        _ => Ok(false),
    }
}
