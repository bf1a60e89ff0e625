//! Octets for the client are counted as they are put out.

ghost use Rattle.std.specs.Prelude.{◌≡◌, ◌+◌, ◌<◌, ◌^◌};

use refinement::Session;

/// So many octets more for the client aren't taken.
pub(crate) fn count_untaken(session: &mut Session, octets: u64)
    requires { session.old.untaken + octets < 2 ^ 64 }
    ensures { session.new ≡ record session.old { untaken = session.old.untaken + octets } }
{
    session.untaken += octets;
}
