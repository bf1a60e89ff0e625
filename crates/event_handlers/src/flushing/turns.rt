//! Streams have their turns, as long as something can go.

ghost use Rattle.std.specs.Prelude.{◌≡◌, ℕ, ◌<◌, true, Some, IfErr, OnOk};
ghost use Rattle.model.specs.Limits.{high_water};
ghost use Rattle.model.specs.Setup.{Setup};
ghost use Rattle.model.specs.Turns.{IsNextTurn};
ghost use Rattle.theory_responses.specs.State.{ready};
ghost use Rattle.streams.specs.Asked.{has};
ghost use Rattle.send_queue.specs.Asked.{windows_over};
ghost use Rattle.refinement.specs.Rest.{NoneCut, NoneDone, IsFlushed, Reached, back_of, IsBack, PerformsBack};
ghost use Rattle.event_handlers.specs.Stopping.{IfOver, EndsBack};

use crate::flushing::parts::{end_stream, send_part};
use crate::halt::Halt;
use crate::paying::{close_unserved, return_dropped};
use effects::Outputs;
use protocol::limits::HIGH_WATER;
use refinement::Session;
use std::alloc::Global;

/// Sends the next part of the stream whose turn it is; where that ends the stream, what waited of
/// its DATA goes back, and no connection of it stays open. An `Err` says that memory was refused,
/// or that the connection was ended in place of a frame.
fn pass_one(alloc: Global, session: &mut Session, id: u32, out: &mut Outputs) -> Result<(), Halt>
    requires reached { (setup : Setup) × (back : ℕ) × IsBack session.old back × Reached setup session.old (back_of back) }
    requires none_done { NoneDone session.old }
    requires turn { IsNextTurn session.old.offers.last
        (ready (windows_over session.old.inbound.rows session.old.inbound.first_size session.old.inbound.window) session.old.offers) (Some id) }
    requires none_cut { NoneCut session.old.offers }
    requires numbered { (id : ℕ) → has session.old.inbound.rows id ≡ true → id < 2147483648 }
    requires few { session.old.untaken < high_water }
    ensures performs { OnOk result (PerformsBack session.old out.old session.new out.new) }
    ensures none_cut { OnOk result (NoneCut session.new.offers) }
    ensures none_done { OnOk result (NoneDone session.new) }
    ensures numbered { OnOk result ((id : ℕ) → has session.new.inbound.rows id ≡ true → id < 2147483648) }
    ensures more { OnOk result (session.old.untaken < session.new.untaken) }
    ensures over { IfErr result (λ stop. IfOver stop (EndsBack session.old out.old out.new)) }
{
    let ends = send_part(alloc, session, id, out)?;
    if ends {
        let dropped = end_stream(session, id, out)?;
        return_dropped(session, dropped, out)?;
        close_unserved(session, id, out)?;
    }
    Ok(())
}

/// The stream that has the next turn: none just where nothing can go.
pub fn next_turn(session: &Session) -> Option<u32>
    ensures { IsNextTurn session.now.offers.last (ready (windows_over session.now.inbound.rows session.now.inbound.first_size session.now.inbound.window)
        session.now.offers) result }
{
    let first_size = session.inbound.first_size();
    let shared = session.inbound.window();
    session
        .offers
        .next_turn(session.inbound.streams(), first_size, shared)
}

/// Sends the parts of responses that can go, each stream in its turn, while fewer than 65,536
/// octets for the client are untaken (RFC 9113, sections 5.1, 6.9.1 and 8.1). A stream whose
/// response ends before its request did is reset. Nothing is on offer any more for a stream that is
/// over, and nothing held of its request, and no connection of it is open. An `Err` says that
/// memory was refused, or that the connection was ended in place of a frame; then the session and, in
/// the first case, the outputs are of no use any more.
pub fn flush(alloc: Global, session: &mut Session, out: &mut Outputs) -> Result<(), Halt>
    requires reached { (setup : Setup) × (back : ℕ) × IsBack session.old back × Reached setup session.old (back_of back) }
    requires none_cut { NoneCut session.old.offers }
    requires none_done { NoneDone session.old }
    requires numbered { (id : ℕ) → has session.old.inbound.rows id ≡ true → id < 2147483648 }
    ensures performs { OnOk result (PerformsBack session.old out.old session.new out.new) }
    ensures flushed { OnOk result (IsFlushed session.new) }
    ensures none_cut { OnOk result (NoneCut session.new.offers) }
    ensures none_done { OnOk result (NoneDone session.new) }
    ensures numbered { OnOk result ((id : ℕ) → has session.new.inbound.rows id ≡ true → id < 2147483648) }
    ensures over { IfErr result (λ stop. IfOver stop (EndsBack session.old out.old out.new)) }
{
    while session.untaken < HIGH_WATER {
        let Some(id) = next_turn(session) else {
            return Ok(());
        };
        pass_one(alloc, session, id, out)?;
    }
    Ok(())
}
