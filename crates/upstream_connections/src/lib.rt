//! Requests that aren't whole, and the open connections to upstreams, in code.
//!
//! A clause sees them as the rule of requests does: what is held of each stream and the open
//! connections, the newest first, and how many were opened. Nothing is kept of what is due: a call
//! answers it.
#![tactic(auto)]

mod by_number;
mod by_route;
mod connection;
mod connections;
mod held;
mod idle;
pub mod laws;
mod progress;
mod upstreams;

pub use crate::connection::UpstreamConnection;
pub use crate::held::{Due, OutgoingRequest};
pub use crate::progress::{Progress, ResponseStage};
pub use crate::upstreams::Upstreams;
