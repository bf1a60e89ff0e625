//! The words of a command line, and what they say.
#![tactic(auto)]

mod arguments;
mod gateways;
mod replays;
mod values;
mod words;

pub use arguments::read_arguments;
pub use gateways::{GatewayWords, read_gateway_words};
pub use replays::{ReplayWords, read_replay_words};
pub use words::{Word, WordsFault};
