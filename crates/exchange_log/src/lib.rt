//! What a log says of the exchanges with upstreams: the octets that go out on each connection and
//! those that come are noted, and once an exchange is over it is told. Tests stand in
//! `clients_tests`.
#![tactic(auto)]

mod exchange;
mod exchanges;

pub use exchange::{End, Exchange};
pub use exchanges::{Exchanges, Over};
