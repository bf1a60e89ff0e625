//! What the client's side and an upstream's took of what was put out for them.

ghost use Rattle.std.specs.Prelude.{◌≡◌, ◌≤◌, ◌<◌, ◌+◌, ◌-◌, true, false, List, IfSome};
ghost use Rattle.model.specs.Setup.{Setup};
ghost use Rattle.model.specs.Logs.{Output};
ghost use Rattle.model.specs.Logs.Event.{ClientTook, UpTook};
ghost use Rattle.model.specs.Tapes.Entry.{Happened};
ghost use Rattle.theory_requests.specs.Lines.{find};
ghost use Rattle.upstream_connections.specs.Connections.{number_of};
ghost use Rattle.refinement.specs.View.{balanced};
ghost use Rattle.refinement.specs.Rest.{IsAtRest, Reached};
ghost use Rattle.refinement.specs.Bringing.{Brings};
ghost use Rattle.event_handlers.specs.paying.Returning.{back_on};
ghost use Rattle.event_handlers.specs.paying.Taking.{MayBeTaken, with_taken, took_if, own_released, older_released};

use refinement::Session;
use window_credit::TakenOctets;

/// Notes that the client's side took so many octets of those that were put out for it.
pub fn note_client_took(session: &mut Session, count: u64)
    requires within { count ≤ session.old.untaken }
    requires rest { IsAtRest session.old }
    ensures brings { (setup : Setup) (outputs : List Output)
        → Brings setup session.old balanced outputs (Happened (ClientTook count)) session.new balanced outputs }
    ensures counts { session.new ≡ record session.old { untaken = session.old.untaken - count } }
{
    session.untaken -= count;
}

/// Notes that the side of an open connection took so many octets of those that were put out for it,
/// and answers how many octets of streams' DATA don't wait any more, of the stream that it was
/// given to last and of those that had it before: they are to go back (RFC 9113, section 6.9).
pub fn note_up_took(session: &mut Session, k: u32, stream: u32, count: u64) -> TakenOctets
    requires within { MayBeTaken session.old.upstreams.live k count }
    requires stream { IfSome (find number_of k session.old.upstreams.live) (λ connection. stream ≡ connection.live.stream) }
    requires rest { IsAtRest session.old }
    requires reached { (setup : Setup) × Reached setup session.old balanced }
    ensures brings { (setup : Setup) (outputs : List Output)
        → Brings setup session.old balanced outputs (Happened (UpTook k count)) session.new (back_on stream result) outputs }
    ensures counts { session.new ≡ with_taken k stream count session.old }
    ensures own { result.own ≡ own_released k stream count session.old }
    ensures older { result.older ≡ older_released k count session.old }
{
    session.upstreams.take(k, count);
    let taken = taken_of(session, k);
    session.marks.take(stream, k, taken)
}

/// How many octets the side of a connection took by now: none where it isn't open.
fn taken_of(session: &Session, k: u32) -> u64
    ensures { result ≡ took_if (find number_of k session.now.upstreams.live) }
{
    match session.upstreams.find(k) {
        Some(connection) => connection.taken(),
        None => 0,
    }
}

/// Whether nothing goes back of what a side took.
pub(crate) fn is_nothing(taken: TakenOctets) -> bool
    ensures none { result ≡ true → taken.own + taken.older ≡ 0 }
    ensures some { result ≡ false → 0 < taken.own + taken.older }
{
    taken.own == 0 && taken.older == 0
}
