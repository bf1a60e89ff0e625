//! Tests of the crates that judge requests, write them and read responses, through the functions
//! that they offer.
//!
//! There is nothing here but tests, one module or two for each crate. They stand apart from the
//! crates so that no crate has to be proved a second time together with its tests. Rows of tables
//! say what goes in and what is wanted.
#![tactic(auto)]

#[cfg(test)]
mod h1_reader_tests;
#[cfg(test)]
mod h1_writer_tests;
#[cfg(test)]
mod lines;
#[cfg(test)]
mod replies_tests;
#[cfg(test)]
mod request_rules_tests;
#[cfg(test)]
mod requests_tests;
