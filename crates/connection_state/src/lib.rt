//! The judgement of client frames: what comes of each (RFC 9113, section 5.4), and what is kept of
//! the connection behind it.
#![tactic(auto)]

mod answers;
mod blocks;
mod bodies;
mod codes;
mod connection;
mod fragments;
mod sending;
mod sending_laws;
mod tables;
mod terms;

pub use crate::answers::{BlockJudged, FrameError, Judged};
pub use crate::connection::Connection;
pub use crate::sending_laws::{
    acts_lead, events_lead, increments_are_told, ledgers_follow, sent_frames_lead,
};
pub use crate::tables::read_block;
pub use crate::terms::Terms;
