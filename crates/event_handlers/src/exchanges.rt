//! Exchanges with upstreams, as parts of a step: a connection is opened for a request that is due,
//! more is sent of one that goes out as it comes, an upstream is heard, and its connection ends or
//! fails.

mod failing;
mod hearing;
mod listening;
mod opening;

pub use crate::exchanges::hearing::{end, fail, hear};
pub(crate) use crate::exchanges::listening::stream_of;
pub use crate::exchanges::opening::{open, reuse, send};
