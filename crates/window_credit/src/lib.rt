//! The octets of active streams' DATA that wait until their upstreams' sides took what was put out
//! for them, where bodies are passed on as they come.
#![tactic(auto)]

pub mod laws;
mod marks;
mod older;
mod places;
mod queue;
mod stream_credit;

pub use crate::marks::{Marks, TakenOctets};
pub use crate::queue::CreditQueue;
