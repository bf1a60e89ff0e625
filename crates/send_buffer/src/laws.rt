//! Laws: what lies in an outbox is what a clause sees of it.

ghost use Rattle.std.specs.Prelude.{◌≡◌, length};
ghost use Rattle.theory_responses.specs.Held.{octets_in};
ghost use Rattle.send_buffer.specs.HeldInside.{in_octets, in_outbox};
ghost use Rattle.send_buffer.specs.declared.octets.Octets.TheInside.{Inside as OctetsInside};
ghost use Rattle.send_buffer.specs.declared.octets.Octets.TheView.{view as octets_seen};
ghost use Rattle.send_buffer.specs.declared.outbox.Outbox.TheInside.{Inside as OutboxInside};
ghost use Rattle.send_buffer.specs.declared.outbox.Outbox.TheView.{view as outbox_seen};

/// What lies in an outbox between calls is what a clause sees of it, and no octet more: each field
/// is counted (`specs/HeldInside`). Lengths of lists are counted, and not the room that they have:
/// of a piece, that is where octets lay which were sent.
pub fn what_is_held_is_seen()
    ensures octets { (octets : OctetsInside) → in_octets octets ≡ length (octets_seen octets) }
    ensures outbox { (outbox : OutboxInside) → in_outbox outbox ≡ octets_in (outbox_seen outbox) }
{}
