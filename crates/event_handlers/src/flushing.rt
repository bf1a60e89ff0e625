//! The parts of responses that can go are sent, each stream in its turn, while the client's side
//! hasn't left too much untaken.

mod parts;
mod turns;

pub use crate::flushing::turns::flush;
