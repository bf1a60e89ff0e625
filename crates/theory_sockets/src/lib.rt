//! From the log to the sockets: what passed through them is what the log tells.
//!
//! [`what_is_served_passed`] joins what serving a world promises of a log (`driver`) with what each
//! call of a world of sockets did (`sockets`). It holds of each kind of socket that names its
//! octets (`socket_io::Socket`, ghosts `left` and `held`).
#![tactic(auto)]

ghost use Rattle.std.specs.Prelude.{Result};
ghost use Rattle.model.specs.Setup.{Setup};
ghost use Rattle.driver.specs.Calls.{Call, WasServed};
ghost use Rattle.driver.specs.declared.services.ServiceEnd.{ServiceEnd};
ghost use Rattle.driver.specs.declared.services.ServeFault.{ServeFault};
ghost use Rattle.sockets.specs.Moves.{Seen, Steps};
ghost use Rattle.theory_sockets.specs.Passed.{IsNew, IsServedBy};

use driver::World;
use sockets::Wire;

/// Where serving a world that moves as sockets do came to an outcome from its beginning on, there is
/// a log of which what is promised holds, and what passed through its sockets since is what that log
/// tells: the client's octets in it are those that left its socket, in order; what was put out for
/// it is what its socket was written, and behind that what waits for it; and the same of each
/// connection, which goes to the address of its route. Ends are told only where they were, and as
/// taken no more than what was written.
pub fn what_is_served_passed<W: World, S: Wire>()
    ensures { (seen : W → Seen S) → ((old new : W) (call : Call) → W.moves old call new → Steps S.left S.held call (seen old) (seen new))
        → (setup : Setup) (outcome : Result ServiceEnd ServeFault) (begun world : W) → IsNew (seen begun)
        → WasServed W.moves W.hears_idle_first W.could_read W.heard_at W.looks setup outcome begun world
        → IsServedBy S.left S.held setup outcome (seen begun) (seen world) }
{}
