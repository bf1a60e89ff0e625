//! Names, values and other octets of the fields of a request by HTTP/2 (RFC 9113, section 8), each
//! as a test of single fields or of all of a list. What they come to for a head and for trailers
//! says `request_rules`, and the tests of both stand in `http1_tests`.
#![tactic(auto)]

pub mod fields;
mod octets;

pub use crate::octets::{is_authority, is_number, is_token, number};
