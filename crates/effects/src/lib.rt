//! What happens to a gateway and what it puts out, gathered in order; the frames that it sends to the client.
#![tactic(auto)]

mod controls;
mod events;
mod laws;
mod outputs;
mod responses;
mod sections;

pub use crate::events::{Event, Output};
pub use crate::laws::{blocks_are_completed, data_is_told, fragments_may_go, updates_are_told};
pub use crate::outputs::Outputs;
pub use crate::sections::section_of;
pub use h1_writer::Text;
