//! Tests of kept connections: a client's next request is on its way while an idle connection still
//! has something to be read.
//!
//! There is nothing here but tests. They stand apart from `sockets_tests`, which takes long as it is.
#![tactic(auto)]

#[cfg(test)]
mod failing_tests;
#[cfg(test)]
mod faults;
#[cfg(test)]
mod idle_tests;
#[cfg(test)]
mod kept_tests;
#[cfg(test)]
mod meeting;
#[cfg(test)]
mod peers;
#[cfg(test)]
mod several_tests;
