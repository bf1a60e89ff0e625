//! An upstream's answer failed: the gateway replies to its stream itself.

ghost use Rattle.std.specs.Prelude.{◌≡◌, ◌<◌, true, false, nat_lt, IfErr, IfOk, OnOk};
ghost use Rattle.model.specs.Limits.{most_untaken};
ghost use Rattle.model.specs.Frames.{spell, internal_error};
ghost use Rattle.model.specs.ErrorClause.{rst_stream};
ghost use Rattle.model.specs.Logs.Output.{ToClient};
ghost use Rattle.model.specs.Tapes.{put};
ghost use Rattle.streams.specs.Asked.{is_active};
ghost use Rattle.refinement.specs.View.{waiting_for};
ghost use Rattle.event_handlers.specs.Stopping.{IfOver, IsCalmed};
ghost use Rattle.event_handlers.specs.exchanges.Giving.{is_cut_then, replied_to, reset_behind, IsGivenUp};

use crate::halt::Halt;
use crate::paying::{Control, pay};
use effects::Outputs;
use local_replies::Cause;
use protocol::error_codes::INTERNAL_ERROR;
use refinement::Session;

/// Resets an active stream, which is over with that (RFC 9113, section 5.4.2): so many octets of
/// its DATA waited, and go back. An `Err` says that memory was refused, or that the connection was
/// ended in place of the frame.
fn reset(session: &mut Session, stream: u32, out: &mut Outputs) -> Result<u64, Halt>
    requires live { is_active session.old.inbound.rows stream ≡ true }
    requires numbered { stream < 2147483648 }
    ensures kept { OnOk result (session.new ≡ reset_behind stream session.old) }
    ensures puts { OnOk result (out.new ≡ put out.old (ToClient (spell (rst_stream stream internal_error)))) }
    ensures back { IfOk result (λ back. back ≡ waiting_for stream session.old) }
    ensures few { OnOk result (nat_lt most_untaken session.old.untaken ≡ false) }
    ensures over { IfErr result (λ stop. IfOver stop (IsCalmed session.old out.old out.new)) }
{
    let control = Control::Reset {
        stream,
        code: INTERNAL_ERROR,
    };
    pay(session, control, out)?;
    session.inbound.sent_reset(stream);
    session.offers.close(stream);
    Ok(session.marks.close(stream))
}

/// The gateway replies to an active stream itself, since its upstream's answer failed (RFC 9110,
/// section 15.6.3), and nothing is held of its request any more. Where a final head is out it is
/// too late for a reply, and the stream is reset: the answer is how many octets of its DATA waited,
/// which go back. An `Err` says that memory was refused, or that the connection was ended in place
/// of the reset.
pub(crate) fn give_up(
    session: &mut Session,
    stream: u32,
    out: &mut Outputs,
) -> Result<Option<u64>, Halt>
    requires live { is_active session.old.inbound.rows stream ≡ true }
    requires numbered { stream < 2147483648 }
    ensures given { IfOk result (λ back. IsGivenUp stream session.old out.old back session.new out.new) }
    ensures over { IfErr result (λ stop. IfOver stop ((is_cut_then stream session.old ≡ true) × IsCalmed (replied_to stream session.old) out.old out.new)) }
{
    session.inbound.answer_failed(stream);
    session.offers.reply(stream, Cause::BadAnswer)?;
    session.upstreams.forget(stream);
    if session.offers.is_cut(stream) {
        let waiting = reset(session, stream, out)?;
        return Ok(Some(waiting));
    }
    Ok(None)
}
