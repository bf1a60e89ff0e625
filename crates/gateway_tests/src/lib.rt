//! Tests of the calls of `gateway` and `driver`. There is nothing here but tests.
#![tactic(auto)]

#[cfg(test)]
mod calls;
#[cfg(test)]
mod served;
