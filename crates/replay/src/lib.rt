//! The library of `h2replay`: scripts are read, run and answered.
#![tactic(auto)]

mod laws;
mod lines;
mod printing;
mod replays;
mod scripts;

pub use laws::one_meaning;
pub use printing::print_steps;
pub use replays::{ReplayFault, replay, run_script};
pub use scripts::{ScriptFault, read_script};
