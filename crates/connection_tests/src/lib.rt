//! Tests of the crates that read frames and keep windows, settings, states and turns, and what
//! waits, through the functions that they offer.
//!
//! There is nothing here but tests, one module or two for each crate. They stand apart from the
//! crates so that no crate has to be proved a second time together with its tests. Rows of tables
//! say what goes in and what is wanted.
#![tactic(auto)]

#[cfg(test)]
mod flags_tests;
#[cfg(test)]
mod frames_tests;
#[cfg(test)]
mod marks_tests;
#[cfg(test)]
mod payloads_tests;
#[cfg(test)]
mod queue_tests;
#[cfg(test)]
mod settings_tests;
#[cfg(test)]
mod socket_io_tests;
#[cfg(test)]
mod streams_tests;
#[cfg(test)]
mod tcp_tests;
#[cfg(test)]
mod turns_tests;
#[cfg(test)]
mod windows_tests;
