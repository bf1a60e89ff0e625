//! Worked runs of the rule of the whole gateway, each of them allowed, and rules that some clause of
//! the headline refuses: each is a proof, in `proofs/`. Nothing stands on it.
#![tactic(auto)]
