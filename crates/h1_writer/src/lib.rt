//! Requests as HTTP/1.1 text (RFC 9112).
#![tactic(auto)]

pub mod laws;
mod lines;
mod numbers;
mod sender;
mod text;

pub use crate::sender::Sender;
pub use crate::text::{LINE_ROOM, Text};
