//! Connections are closed.

ghost use Rattle.std.specs.Prelude.{◌≡◌, ℕ, List, ◌∷◌, reverse, true, nat_lt, if◌then◌else◌, OnOk};
ghost use Rattle.model.specs.Limits.{most_untaken};
ghost use Rattle.model.specs.Frames.{enhance_your_calm};
ghost use Rattle.model.specs.Setup.{Setup};
ghost use Rattle.model.specs.Logs.Act.{CloseClient};
ghost use Rattle.model.specs.Tapes.Entry.{Did};
ghost use Rattle.upstream_connections.specs.Connections.{lives};
ghost use Rattle.theory.specs.Moves.{Decision, Move};
ghost use Rattle.theory.specs.State.{State};
ghost use Rattle.theory.specs.Ending.{closed_all, ending_on_tape};
ghost use Rattle.refinement.specs.View.{View, balanced, Leads};
ghost use Rattle.refinement.specs.Performing.{put_all};
ghost use Rattle.refinement.specs.Rest.{told_view};
ghost use Rattle.event_handlers.specs.ending.Closing.{IsShut};
ghost use Rattle.event_handlers.specs.Stopping.{calmed};
ghost use Rattle.event_handlers.specs.ending.Reasons.{IsBy};

use crate::crowding::is_crowded;
use crate::ending::reason::Ending;
use effects::Outputs;
use protocol::error_codes::ENHANCE_YOUR_CALM;
use refinement::Session;
use std::alloc::AllocError;
use upstream_connections::Upstreams;

/// Ends a connection with what came in: it says GOAWAY where that is an error, with the highest
/// stream and the code (RFC 9113, section 6.8), which asks the client to be calm where more than
/// 1,048,576 octets for it are untaken, whatever the error is, and closes each open connection to
/// an upstream, by rising number, and the client's. What is kept is of no use behind it, whatever
/// it answers. An `Err` says that memory was refused.
pub fn end(session: &mut Session, why: Ending, out: &mut Outputs) -> Result<(), AllocError>
    ensures { OnOk result ((setup : Setup) (run : List Move) (s : State) (before : View) (d : Decision) → before.upstreams ≡ session.old.upstreams
        → before.inbound.rows ≡ session.old.inbound.rows → before.untaken ≡ session.old.untaken → Leads setup run before balanced s → IsBy s why d
        → out.new ≡ put_all out.old (ending_on_tape s d)) }
{
    if let Some(code) = why.code() {
        let code = goaway_code(session, code);
        out.send_goaway(session.inbound.streams().highest(), code)?;
    }
    close_all(&session.upstreams, out)
}

/// The code of the GOAWAY of an error.
fn goaway_code(session: &Session, code: u32) -> u32
    ensures { result ≡ (if nat_lt most_untaken session.now.untaken then enhance_your_calm else code) }
{
    if is_crowded(session) {
        ENHANCE_YOUR_CALM
    } else {
        code
    }
}

/// Ends a connection in place of a frame, since too many octets for the client are untaken: it asks
/// the client to be calm (RFC 9113, section 7), and closes each open connection to an upstream, by
/// rising number, and the client's. What is kept is of no use behind it, whatever it answers. An
/// `Err` says that memory was refused.
pub(crate) fn calm(session: &mut Session, out: &mut Outputs) -> Result<(), AllocError>
    ensures { OnOk result (out.new ≡ put_all out.old (calmed session.old)) }
{
    out.send_goaway(session.inbound.streams().highest(), ENHANCE_YOUR_CALM)?;
    close_all(&session.upstreams, out)
}

/// Shuts a connection that is spent: no stream may be opened any more, and none is active. It
/// closes each open connection to an upstream, and the client's. What is kept is of no use behind
/// it, whatever it answers. An `Err` says that memory was refused.
pub fn shut(session: &mut Session, out: &mut Outputs) -> Result<(), AllocError>
    requires exhausted { (told_view session.old).ends ≡ true }
    ensures { OnOk result ((setup : Setup) (run : List Move) (s : State) (fresh back : ℕ)
        → Leads setup run session.old (record balanced { fresh = fresh; shared = back }) s → IsShut setup run s out.old out.new) }
{
    close_all(&session.upstreams, out)
}

/// Closes each open connection to an upstream, by rising number, and then the client's. An `Err`
/// says that memory was refused.
fn close_all(upstreams: &Upstreams, out: &mut Outputs) -> Result<(), AllocError>
    ensures { OnOk result (out.new ≡ put_all out.old (Did CloseClient ∷ closed_all (reverse (lives upstreams.now.live)))) }
{
    let connections = upstreams.connections();
    for connection in connections {
        out.close_up(connection.number())?;
    }
    out.close_client()
}
