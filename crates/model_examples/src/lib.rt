//! What the definitions of `model` say of worked logs, texts and frames, and what they refuse: each
//! example is a proof, in `proofs/`.
#![tactic(auto)]
