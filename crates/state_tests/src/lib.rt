//! Tests of the crates that keep the state of a connection, through the functions that they offer.
//!
//! There is nothing here but tests, one module for each crate. They stand apart from the crates so
//! that no crate has to be proved a second time together with its tests. Rows of tables say what
//! goes in and what is wanted.
#![tactic(auto)]

#[cfg(test)]
mod coder_tests;
#[cfg(test)]
mod judgement_tests;
#[cfg(test)]
mod streams_seen;
#[cfg(test)]
mod streams_tests;
