//! What is asked of an active stream.

ghost use Rattle.std.specs.Prelude.{◌≡◌, true};
ghost use Rattle.theory_errors.specs.Rows.{find};
ghost use Rattle.streams.specs.Asked.{is_active};

use connection_state::Connection;

/// Whether the final head of a response is out on an active stream.
pub(crate) fn head_out(inbound: &Connection, id: u32) -> bool
    requires { is_active inbound.now.rows id ≡ true }
    ensures { result ≡ (find inbound.now.rows id).head_out }
{
    match inbound.streams().find(id) {
        Some(live) => live.head_out(),
        None => unreachable!(),
    }
}
