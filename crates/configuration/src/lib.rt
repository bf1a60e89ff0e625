//! The configuration of a gateway, read from TOML.
#![tactic(auto)]

mod faults;
mod keys;
mod reading;

pub use faults::{ConfigFault, Key};
pub use reading::read_config;
