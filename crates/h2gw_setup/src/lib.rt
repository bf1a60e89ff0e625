//! The parts of the program `h2gw`: what it is set up with, what a configuration sets, and why the
//! program stops.
#![tactic(auto)]

pub mod checks;
mod explaining;
pub mod figures;
pub mod setting;
pub mod stamps;
pub mod stops;
