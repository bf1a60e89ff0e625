//! What comes in does, whole: a frame of the client, the end of its octets, an event of an
//! upstream. Behind each the gateway rests, or the connection to the client was closed.
//!
//! The parts are `plain_frames`, `block_frames`, `exchanges`, `paying`, `flushing` and `ending`, in
//! the order in which the rule takes them: what came in; the frame that it calls for, or the GOAWAY
//! behind the last stream; a connection for a request that is due, or more of one that goes out;
//! octets that go back; connections that are done with; responses.
#![tactic(auto)]

mod asking;
pub mod block_frames;
mod crowding;
mod draining;
pub mod ending;
pub mod exchanges;
pub mod flushing;
mod forgetting;
mod halt;
mod hearing;
mod leaving;
pub mod paying;
pub mod plain_frames;
mod resting;
mod taking;

pub use crate::draining::drain;
pub use crate::halt::Halt;
pub use crate::hearing::{client_took, end, fail, hear, up_took};
pub use crate::leaving::{Breach, leave, leave_at};
pub use crate::resting::Onward;
pub use crate::taking::{ServiceTerms, take_frame};
