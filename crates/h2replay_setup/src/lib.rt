//! The parts of the program `h2replay`: what is to be replayed, and why it stops.
#![tactic(auto)]

pub mod setting;
pub mod stops;
