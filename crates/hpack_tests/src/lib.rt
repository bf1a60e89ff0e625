//! Tests of the crates that read and write compressed header blocks, through the functions that
//! they offer.
//!
//! There is nothing here but tests, one module or two for each crate. They stand apart from the
//! crates so that no crate has to be proved a second time together with its tests. Rows of tables
//! say what goes in and what is wanted.
#![tactic(auto)]

#[cfg(test)]
mod decoder_tests;
#[cfg(test)]
mod encoder_tests;
#[cfg(test)]
mod huffman_tests;
#[cfg(test)]
mod integers_tests;
#[cfg(test)]
mod joiner_tests;
#[cfg(test)]
mod lines;
#[cfg(test)]
mod tables_tests;
