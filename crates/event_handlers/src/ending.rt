//! The end of a connection to a client: GOAWAY where the client made an error of the connection
//! (RFC 9113, section 5.4.1), a close for each connection to an upstream, and the client's own.
//!
//! [`end`] is for what comes in and ends the connection, [`shut`] for a connection on which no
//! stream may be opened and none is active, and `calm` for one that ends in place of a frame, since
//! too many octets for the client are untaken.

ghost use Rattle.std.specs.Prelude.{List};
ghost use Rattle.model.specs.Setup.{Setup};
ghost use Rattle.theory.specs.Moves.{Decision, Move};
ghost use Rattle.theory.specs.State.{State};
ghost use Rattle.refinement.specs.Rest.{IsAtRest};
ghost use Rattle.refinement.specs.View.{View, balanced, Leads};
ghost use Rattle.event_handlers.specs.ending.Closing.{IsEnded};
ghost use Rattle.event_handlers.specs.ending.Reasons.{IsBy};
ghost use Rattle.event_handlers.specs.declared.ending.reason.Ending.{Ending as Reason};

mod closing;
mod reason;

pub(crate) use crate::ending::closing::calm;
pub use crate::ending::closing::{end, shut};
pub use crate::ending::reason::Ending;

/// Where nothing is pending and what is kept is at rest, the connection may end with each thing
/// that [`end`] is for: all that is put out then comes by the rule, and the gateway rests behind
/// it.
pub fn ends_come_by_the_rule()
    ensures { (setup : Setup) (run : List Move) (before : View) (s : State) (why : Reason) (d : Decision) → Leads setup run before balanced s
        → IsAtRest before → IsBy s why d → IsEnded setup run s d }
{}
