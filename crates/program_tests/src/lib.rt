//! Tests of the crates that read what the programs are given: the words of a command line, a
//! configuration, and scripts with their replay; and of what the gateway is set up with and says
//! where it stops.
//!
//! There is nothing here but tests, one module for each crate. They stand apart from the crates so
//! that no crate has to be proved a second time together with its tests.
#![tactic(auto)]

#[cfg(test)]
mod checked;
#[cfg(test)]
mod configurations;
#[cfg(test)]
mod replays;
#[cfg(test)]
mod started;
#[cfg(test)]
mod words;
