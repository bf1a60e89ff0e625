//! Tests of a session's parts for responses, for requests and for connections to upstreams, and of
//! what is put out, through the functions that they offer.
//!
//! There is nothing here but tests, a module for each crate. They stand apart from the crates so
//! that no crate has to be proved a second time together with its tests.
#![tactic(auto)]

#[cfg(test)]
mod answers_tests;
#[cfg(test)]
mod offers_tests;
#[cfg(test)]
mod outbox_tests;
#[cfg(test)]
mod outputs_tests;
#[cfg(test)]
mod upstreams_tests;
