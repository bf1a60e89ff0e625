//! A request as it waits for its end, and the text that is sent for it then; or as it goes out, piece by piece.
#![tactic(auto)]

mod buffered_request;
mod going;
pub mod laws;

pub use crate::buffered_request::{Begun, BufferedRequest, begin};
pub use crate::going::Going;
