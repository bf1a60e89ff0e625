//! Laws: what lies in octets on their way out is what a clause sees of them.

ghost use Rattle.std.specs.Prelude.{◌≡◌, ◌+◌, length};
ghost use Rattle.socket_io.specs.HeldInside.{in_outgoing};
ghost use Rattle.socket_io.specs.declared.outgoing.Outgoing.TheInside.{Inside as OutgoingInside};
ghost use Rattle.socket_io.specs.declared.outgoing.Outgoing.TheView.{view as outgoing_seen, invariant as IsSoundOutgoing};

/// What lies in octets on their way out, between calls, is what a clause sees of them: those that
/// wait, and those that were written and still lie before them, and no octet more: each field is
/// counted (`specs/HeldInside`). Lengths of lists are counted, and not the room that they have.
pub fn what_is_held_is_seen()
    ensures { (outgoing : OutgoingInside) → IsSoundOutgoing outgoing
        → in_outgoing outgoing ≡ (outgoing_seen outgoing).sent + length (outgoing_seen outgoing).waiting }
{}
