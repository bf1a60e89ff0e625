//! Whether too many octets for the client are untaken for a frame beside responses.

ghost use Rattle.std.specs.Prelude.{◌≡◌, nat_lt};
ghost use Rattle.model.specs.Limits.{most_untaken};

use protocol::limits::MOST_UNTAKEN;
use refinement::Session;

/// Whether more are.
pub(crate) fn is_crowded(session: &Session) -> bool
    ensures { result ≡ nat_lt most_untaken session.now.untaken }
{
    session.untaken > MOST_UNTAKEN
}
