//! What HTTP/2, HTTP/1.1 and a faithful gateway are: the definitions that every other crate cites,
//! in `specs/`, and laws of them, each as the contract of a function with an empty body.
#![tactic(auto)]

pub mod clauses;
pub mod exchanges;
pub mod frame_laws;
pub mod hpack;
pub mod http1;
pub mod http2;
pub mod layers;
pub mod responses;
pub mod steps;
pub mod streams;
