//! What is on offer for a stream and wasn't sent yet, in code: heads, octets of a body, and the end.
#![tactic(auto)]

pub mod laws;
mod octets;
mod outbox;
mod part;

pub use crate::outbox::Outbox;
pub use crate::part::Part;
