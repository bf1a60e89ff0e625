//! What is left to do behind a frame of the client: control frames that are owed are paid, octets
//! of DATA go back, and connections of a stream that isn't served any more are closed; and what the
//! client's side and an upstream's took is noted.
//!
//! Each frame beside responses goes out by one call (`pay`), which asks once whether too many
//! octets are untaken for it: then the connection is ended in its place, and all that was to follow
//! is given up with [`Halt::Over`](crate::Halt).
//!
//! Each part of a step performs (`refinement`): wherever moves by the rule led to what was kept,
//! moves by the rule lead on to what is kept now, and put out what was put out. Nothing comes in
//! with them, but with the two calls that note what was taken.

mod closing;
mod control;
mod counting;
mod greeting;
mod returning;
mod taking;

pub use crate::paying::closing::close_unserved;
pub(crate) use crate::paying::control::{Control, pay};
pub use crate::paying::greeting::greet;
pub use crate::paying::returning::{return_dropped, return_taken, settle};
pub(crate) use crate::paying::taking::is_nothing;
pub use crate::paying::taking::{note_client_took, note_up_took};
