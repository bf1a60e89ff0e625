//! Connections of a stream that isn't served any more are closed.

ghost use Rattle.std.specs.Prelude.{◌≡◌, ℕ, suc, option_map, OnOk};
ghost use Rattle.model.specs.Setup.{Setup};
ghost use Rattle.theory_requests.specs.Lines.{find};
ghost use Rattle.upstream_connections.specs.Connections.{number_of, works_for};
ghost use Rattle.refinement.specs.Rest.{NoneDone, back_of};
ghost use Rattle.refinement.specs.Bringing.{PerformsOwn};
ghost use Rattle.event_handlers.specs.Closings.{NoneDoneBut};

use effects::Outputs;
use refinement::Session;
use std::alloc::AllocError;

/// The number of the newest open connection that works for a stream, if there is one: an idle one works for none.
fn newest_of(session: &Session, id: u32) -> Option<u32>
    ensures { result ≡ option_map number_of (find works_for (suc id) session.now.upstreams.live) }
{
    match session.upstreams.of_stream(id) {
        Some(connection) => Some(connection.number()),
        None => None,
    }
}

/// Closes each connection that works for the stream that a step was about, if that isn't served any
/// more; no other is done with. One that is idle, or serves another stream by now, stays open. An
/// `Err` says that memory was refused; then neither the session nor the outputs are of use any more.
pub fn close_unserved(session: &mut Session, id: u32, out: &mut Outputs) -> Result<(), AllocError>
    requires { NoneDoneBut id session.old }
    ensures performs { OnOk result ((setup : Setup) (back : ℕ) → PerformsOwn setup session.old (back_of back) out.old session.new (back_of back) out.new) }
    ensures none_done { OnOk result (NoneDone session.new) }
    ensures inbound { OnOk result (session.new.inbound ≡ session.old.inbound) }
    ensures offers { OnOk result (session.new.offers ≡ session.old.offers) }
    ensures encoding { OnOk result (session.new.encoding ≡ session.old.encoding) }
    ensures untaken { OnOk result (session.new.untaken ≡ session.old.untaken) }
{
    if session.inbound.is_served(id) {
        return Ok(());
    }
    while let Some(k) = newest_of(session, id) {
        session.upstreams.close(k);
        out.close_up(k)?;
    }
    Ok(())
}
