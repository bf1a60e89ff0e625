//! What comes of an upstream goes to its answer, and what is news of that is on offer.

ghost use Rattle.std.specs.Prelude.{◌≡◌, ◌<◌, true, false, IfSome, IfErr, IfOk, OnOk, is_some};
ghost use Rattle.model.specs.Logs.Act.{Close};
ghost use Rattle.model.specs.Logs.Output.{Does};
ghost use Rattle.model.specs.Tapes.{put};
ghost use Rattle.send_queue.specs.Asked.{is_kept};
ghost use Rattle.send_queue.specs.Changes.{IsEndedFor};
ghost use Rattle.theory_requests.specs.Lines.{find};
ghost use Rattle.streams.specs.Asked.{is_active};
ghost use Rattle.upstream_connections.specs.Connections.{number_of, fresh};
ghost use Rattle.upstream_response.specs.declared.answer.ResponsePassing.TheVariants.{Streaming};
ghost use Rattle.event_handlers.specs.Stopping.{IfOver, IsCalmed};
ghost use Rattle.event_handlers.specs.exchanges.Giving.{closed_at, is_cut_then, replied_to, IsAbandoned};
ghost use Rattle.event_handlers.specs.exchanges.Taking.{served_by, IsHeardOut, AreTaken, IsEndTaken};

use crate::exchanges::failing::give_up;
use crate::halt::Halt;
use effects::Outputs;
use refinement::Session;
use send_queue::Offers;
use std::alloc::{AllocError, Global};
use upstream_response::{Answer, AnswerEnd, Heard, ResponsePassing};

/// The stream of an open connection.
pub(crate) fn stream_of(session: &Session, k: u32) -> u32
    requires { is_some (find number_of k session.now.upstreams.live) ≡ true }
    ensures { IfSome (find number_of k session.now.upstreams.live) (λ connection. result ≡ connection.live.stream) }
{
    let Some(connection) = session.upstreams.find(k) else {
        unreachable!();
    };
    connection.stream()
}

/// The stream that an open connection works for: none where it is idle.
pub(crate) fn served_by(session: &Session, k: u32) -> Option<u32>
    requires { is_some (find number_of k session.now.upstreams.live) ≡ true }
    ensures { IfSome (find number_of k session.now.upstreams.live) (λ connection. result ≡ served_by connection.live) }
{
    let Some(connection) = session.upstreams.find(k) else {
        unreachable!();
    };
    if connection.is_idle() {
        return None;
    }
    Some(connection.stream())
}

/// Octets of an upstream go to its answer, of which nothing is kept once its response is over. An
/// `Err` says that memory was refused.
fn hear_answer(
    alloc: Global,
    offers: &mut Offers,
    stream: u32,
    answer: &mut Answer,
    octets: &[u8],
) -> Result<Heard, AllocError>
    requires { is_kept stream offers.old.kept ≡ true }
    ensures { IfOk result (λ heard. IsHeardOut offers.old stream answer.old octets.now heard answer.new offers.new) }
{
    let heard = offers.hear(stream, answer, octets)?;
    if heard == Heard::GoesOn {
        return Ok(heard);
    }
    *answer = Answer::new(alloc, false, ResponsePassing::Streaming);
    Ok(heard)
}

/// Octets of an upstream go to the answer of its connection. An `Err` says that memory was refused.
pub(crate) fn take_octets(
    alloc: Global,
    session: &mut Session,
    k: u32,
    stream: u32,
    octets: &[u8],
) -> Result<Heard, AllocError>
    requires opened { is_some (find number_of k session.old.upstreams.live) ≡ true }
    requires of { IfSome (find number_of k session.old.upstreams.live) (λ connection. stream ≡ connection.live.stream) }
    requires kept { is_kept stream session.old.offers.kept ≡ true }
    ensures { IfOk result (λ heard. AreTaken session.old k octets.now heard session.new) }
{
    let Some(answer) = session.upstreams.answer_mut(k) else {
        unreachable!();
    };
    hear_answer(alloc, &mut session.offers, stream, answer, octets)
}

/// The end of an upstream's connection goes to its answer, of which nothing is kept behind it. An
/// `Err` says that memory was refused.
fn end_answer(
    alloc: Global,
    offers: &mut Offers,
    stream: u32,
    answer: &mut Answer,
) -> Result<AnswerEnd, AllocError>
    requires { is_kept stream offers.old.kept ≡ true }
    ensures { IfOk result (λ ended. IsEndedFor offers.old stream answer.old ended offers.new × (answer.new ≡ fresh false Streaming)) }
{
    let ended = offers.end(stream, answer)?;
    *answer = Answer::new(alloc, false, ResponsePassing::Streaming);
    Ok(ended)
}

/// The end of an upstream's connection goes to its answer. An `Err` says that memory was refused.
pub(crate) fn take_end(
    alloc: Global,
    session: &mut Session,
    k: u32,
    stream: u32,
) -> Result<AnswerEnd, AllocError>
    requires opened { is_some (find number_of k session.old.upstreams.live) ≡ true }
    requires of { IfSome (find number_of k session.old.upstreams.live) (λ connection. stream ≡ connection.live.stream) }
    requires kept { is_kept stream session.old.offers.kept ≡ true }
    ensures { IfOk result (λ ended. IsEndTaken session.old k ended session.new) }
{
    let Some(answer) = session.upstreams.answer_mut(k) else {
        unreachable!();
    };
    end_answer(alloc, &mut session.offers, stream, answer)
}

/// Closes an open connection. An `Err` says that memory was refused.
pub(crate) fn close(session: &mut Session, k: u32, out: &mut Outputs) -> Result<(), AllocError>
    ensures kept { OnOk result (session.new ≡ closed_at k session.old) }
    ensures puts { OnOk result (out.new ≡ put out.old (Does (Close k))) }
{
    session.upstreams.close(k);
    out.close_up(k)
}

/// Gives up the stream of the connection whose answer failed. Where the gateway replies, the
/// connection is closed at once. Where the stream is reset it isn't closed yet, since the octets of
/// its DATA that waited go back before that: so many are the answer. An `Err` says that memory was
/// refused, or that the connection was ended in place of the reset.
pub(crate) fn abandon(
    session: &mut Session,
    k: u32,
    stream: u32,
    out: &mut Outputs,
) -> Result<u64, Halt>
    requires live { is_active session.old.inbound.rows stream ≡ true }
    requires numbered { stream < 2147483648 }
    ensures given { IfOk result (λ back. IsAbandoned k stream session.old out.old back session.new out.new) }
    ensures over { IfErr result (λ stop. IfOver stop ((is_cut_then stream session.old ≡ true) × IsCalmed (replied_to stream session.old) out.old out.new)) }
{
    match give_up(session, stream, out)? {
        Some(waiting) => Ok(waiting),
        None => {
            close(session, k, out)?;
            Ok(0)
        }
    }
}
