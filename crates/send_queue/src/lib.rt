//! What is on offer for all active streams, and whose turn it is, in code.
#![tactic(auto)]

mod kept;
mod offered;
mod offers;
mod places;
mod reply;
mod turns;

pub use crate::offers::Offers;
