//! The connection that is due is opened, or what is due is sent on one that is open.

ghost use Rattle.std.specs.Prelude.{◌≡◌, ◌≤◌, ℕ, true, false, codes, OnOk, IfSome, is_some};
ghost use Rattle.model.specs.Causes.{is_front_of};
ghost use Rattle.model.specs.Setup.{Setup};
ghost use Rattle.theory_requests.specs.State.Due.{ToSend};
ghost use Rattle.upstream_response.specs.Waiting.{passing_in};
ghost use Rattle.theory_requests.specs.Lines.{find};
ghost use Rattle.upstream_connections.specs.Connections.{number_of};
ghost use Rattle.upstream_connections.specs.Requests.{due_for, due_on};
ghost use Rattle.refinement.specs.View.{balanced};
ghost use Rattle.refinement.specs.Rest.{Reached};
ghost use Rattle.refinement.specs.Bringing.{PerformsOwn};
ghost use Rattle.event_handlers.specs.MidStep.{IsHandedOn};
ghost use Rattle.event_handlers.specs.Resting.{IsPassedBy};
ghost use Rattle.event_handlers.specs.exchanges.Opening.{with_side, with_side_over, IsAbove, IsLast};

use crate::exchanges::listening::stream_of;
use effects::Outputs;
use h1_writer::Text;
use refinement::Session;
use std::alloc::AllocError;
use upstream_connections::OutgoingRequest;
use upstream_response::ResponsePassing;

/// Whether a request's text begins with the method HEAD (RFC 9112, section 3).
pub(crate) fn asks_for_head(text: &[u8]) -> bool
    ensures { result ≡ is_front_of (codes "HEAD ") text.now }
{
    text.starts_with(b"HEAD ")
}

/// From now on what is put out for the connection that was opened for a stream is counted, where
/// bodies are passed on as they come: so many octets are. An `Err` says that memory was refused.
fn begin_counting(
    session: &mut Session,
    stream: u32,
    k: u32,
    count: u64,
    passing: ResponsePassing,
) -> Result<(), AllocError>
    requires { IsAbove (passing_in passing) stream session.old.marks }
    ensures { OnOk result (session.new ≡ record session.old { marks = with_side (passing_in passing) stream k count session.old.marks }) }
{
    match passing {
        ResponsePassing::Whole(_) => Ok(()),
        ResponsePassing::Streaming => {
            session.marks.open(stream, k, 0, 0)?;
            session.marks.put(stream, count);
            Ok(())
        }
    }
}

/// How many octets were put out for a connection, to all streams that it was given to, and how many
/// of them its side took.
#[derive(Clone, Copy)]
struct Counts {
    /// How many were put out.
    put_out: u64,
    /// How many were taken.
    taken: u64,
}

/// An open connection goes over from one stream to another: from now on what is put out for it is
/// counted for that, where bodies are passed on as they come, behind so many octets. Octets of the
/// first one's DATA that wait for it wait on. An `Err` says that memory was refused, or that more
/// than 2^64 - 1 would wait so, which never do.
fn go_on_counting(
    session: &mut Session,
    from: u32,
    stream: u32,
    k: u32,
    counts: Counts,
    passing: ResponsePassing,
) -> Result<(), AllocError>
    requires above { IsAbove (passing_in passing) stream session.old.marks }
    requires within { counts.taken ≤ counts.put_out }
    ensures { OnOk result (session.new ≡ record session.old {
      marks = with_side_over
          (passing_in passing) from stream k counts.put_out counts.taken session.old.marks;
    }) }
{
    match passing {
        ResponsePassing::Whole(_) => Ok(()),
        ResponsePassing::Streaming => {
            let waiting = session.marks.total(from);
            if session.marks.behind().checked_add(waiting).is_none() {
                return Err(AllocError);
            }
            session.marks.pass(from);
            session.marks.open(stream, k, counts.put_out, counts.taken)
        }
    }
}

/// Opens the connection that is due for a request, by its route, and sends there what is written of
/// it, where no frame is owed. Its response is passed on as the request is. An `Err` says that
/// memory was refused; then the session and the outputs are of no use any more.
pub fn open(
    session: &mut Session,
    request: OutgoingRequest,
    passing: ResponsePassing,
    out: &mut Outputs,
) -> Result<(), AllocError>
    requires reached { (setup : Setup) × IsPassedBy setup passing × (fresh back : ℕ)
        × Reached setup session.old (record balanced { due = due_for request; fresh = fresh; shared = back }) }
    ensures performs { OnOk result ((setup : Setup) (fresh back : ℕ) → IsPassedBy setup passing
        → PerformsOwn setup session.old (record balanced {
          due = due_for request;
          fresh = fresh;
          shared = back;
        }) out.old session.new (record balanced { fresh = fresh; shared = back }) out.new) }
    ensures handed { OnOk result (IsHandedOn session.old session.new) }
{
    let OutgoingRequest {
        stream,
        route,
        text,
        rest,
    } = request;
    let to_head = asks_for_head(text.as_slice());
    let count = text.as_slice().len() as u64;
    let k = session
        .upstreams
        .open(stream, route, to_head, passing, rest)?;
    out.open_up(k, route)?;
    session.upstreams.put(k, count);
    begin_counting(session, stream, k, count, passing)?;
    out.send_up(k, text)
}

/// The stream that an open connection was given to last, and what is counted of it.
fn last_of(session: &Session, k: u32) -> (u32, Counts)
    requires { is_some (find number_of k session.now.upstreams.live) ≡ true }
    ensures { IfSome (find number_of k session.now.upstreams.live) (λ connection. IsLast connection result.0 result.1) }
{
    let Some(connection) = session.upstreams.find(k) else {
        unreachable!();
    };
    let counts = Counts {
        put_out: connection.put_out(),
        taken: connection.taken(),
    };
    (connection.stream(), counts)
}

/// Gives the idle connection with this number to the stream whose request is due on it, and sends
/// there what is written of that, where no frame is owed (RFC 9112, section 9.3). Its response is
/// passed on as the request is. An `Err` says that memory was refused; then the session and the
/// outputs are of no use any more.
pub fn reuse(
    session: &mut Session,
    number: u32,
    request: OutgoingRequest,
    passing: ResponsePassing,
    out: &mut Outputs,
) -> Result<(), AllocError>
    requires reached { (setup : Setup) × IsPassedBy setup passing × (fresh back : ℕ)
        × Reached setup session.old (record balanced { due = due_on number request; fresh = fresh; shared = back }) }
    ensures performs { OnOk result ((setup : Setup) (fresh back : ℕ) → IsPassedBy setup passing
        → PerformsOwn setup session.old (record balanced {
          due = due_on number request;
          fresh = fresh;
          shared = back;
        }) out.old session.new (record balanced { fresh = fresh; shared = back }) out.new) }
    ensures handed { OnOk result (IsHandedOn session.old session.new) }
{
    let OutgoingRequest {
        stream,
        text,
        rest,
        ..
    } = request;
    let (from, mut counts) = last_of(session, number);
    let count = text.as_slice().len() as u64;
    let Some(put_out) = counts.put_out.checked_add(count) else {
        return Err(AllocError);
    };
    counts.put_out = put_out;
    let to_head = asks_for_head(text.as_slice());
    session
        .upstreams
        .give(number, stream, to_head, passing, rest)?;
    session.upstreams.put(number, count);
    go_on_counting(session, from, stream, number, counts, passing)?;
    out.send_up(number, text)
}

/// Sends octets that are due on the open connection with this number, where no frame is owed. An
/// `Err` says that memory was refused; then the session and the outputs are of no use any more.
pub fn send(
    session: &mut Session,
    number: u32,
    text: Vec<u8>,
    out: &mut Outputs,
) -> Result<(), AllocError>
    requires reached { (setup : Setup) × (fresh back : ℕ) × Reached setup session.old (record balanced {
      due = ToSend number text.items;
      fresh = fresh;
      shared = back;
    }) }
    ensures performs { OnOk result ((setup : Setup) (fresh back : ℕ)
        → PerformsOwn setup session.old (record balanced {
          due = ToSend number text.items;
          fresh = fresh;
          shared = back;
        }) out.old session.new (record balanced { fresh = fresh; shared = back }) out.new) }
    ensures handed { OnOk result (IsHandedOn session.old session.new) }
{
    let stream = stream_of(session, number);
    let count = text.len() as u64;
    if !session.upstreams.has_room(number, count) {
        return Err(AllocError);
    }
    session.upstreams.put(number, count);
    session.marks.put(stream, count);
    out.send_up(number, Text::from_octets(text))
}
