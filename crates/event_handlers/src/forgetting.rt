//! The end of a stream: nothing is kept of it any more.

ghost use Rattle.std.specs.Prelude.{◌≡◌};
ghost use Rattle.refinement.specs.View.{waiting_for};
ghost use Rattle.event_handlers.specs.Forgetting.{forgotten};

use refinement::Session;

/// Nothing is on offer any more for a stream that is over, and nothing is held of its request; the
/// octets that waited of its DATA go back, and so many are the answer (RFC 9113, section 6.9).
pub(crate) fn forget_stream(session: &mut Session, id: u32) -> u64
    ensures kept { session.new ≡ forgotten id session.old }
    ensures dropped { result ≡ waiting_for id session.old }
{
    session.offers.close(id);
    session.upstreams.forget(id);
    session.marks.close(id)
}
