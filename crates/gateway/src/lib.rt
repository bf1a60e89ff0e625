//! The gateway over `event_handlers`: octets of a client and of upstreams in, octets for both out.
//!
//! [`Gateway::step`] keeps for what log and behind which moves of the rule a gateway stands
//! (`specs/Stands`); by [`logs_are_promised`] such a log has the headline, and tables are in step
//! behind it.
#![tactic(auto)]

ghost use Rattle.std.specs.Prelude.{◌≡◌, true, List, reverse};
ghost use Rattle.model.specs.Logs.{Step};
ghost use Rattle.model.specs.Setup.{Setup};
ghost use Rattle.theory.specs.Moves.{Move};
ghost use Rattle.gateway.specs.Promises.{OwnInStep, Promise};
ghost use Rattle.gateway.specs.Stands.{Standing, Stands, is_open};

mod config;
mod gateway;
pub mod laws;
mod phase;
mod preface;
mod reading;
mod runs;

pub use config::{Config, Passing, Policy, Route};
pub use effects::{Event, Output, Text};
pub use gateway::{Fault, Gateway};
pub use runs::{RunFault, run, run_into};

/// While the connection is open, the header table of a gateway's own encoder is what all header
/// blocks that it sent leave, and that of its own decoder what all that it received leave, refused,
/// reset and too large ones with the others (RFC 7541, section 2.2): behind the tape by which its
/// log has what is promised.
pub fn own_tables_are_in_step()
    ensures { (setup : Setup) (g : Standing) (log : List Step) (run : List Move) → Stands setup g log run → is_open g.phase ≡ true
        → OwnInStep setup (reverse log) g.kept }
{}

/// A log for which a gateway stands has what is promised of it: the headline, by a tape of it, and
/// behind that tape tables are in step and turns were fair.
pub fn logs_are_promised()
    ensures { (setup : Setup) (g : Standing) (log : List Step) (run : List Move) → Stands setup g log run → Promise setup (reverse log) }
{}
