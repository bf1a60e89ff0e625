//! Octets between a gateway and sockets that don't wait: what a socket takes at once, and what a read gives.
#![tactic(auto)]

mod incoming;
pub mod laws;
mod outgoing;
mod socket;

pub use incoming::{Got, read_piece};
pub use outgoing::{Outgoing, PutFault};
pub use socket::Socket;
