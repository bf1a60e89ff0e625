//! The answer of an upstream, read as it comes and put on offer for its stream.
#![tactic(auto)]

mod answer;
pub mod laws;
pub mod reader_laws;

pub use crate::answer::{Answer, AnswerEnd, Heard, ResponsePassing};
