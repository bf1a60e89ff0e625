//! Laws: no octets lie in what is kept of streams.

ghost use Rattle.std.specs.Prelude.{◌≡◌};
ghost use Rattle.streams.specs.HeldInside.{in_live, in_streams};
ghost use Rattle.streams.specs.declared.StreamTable.TheInside.{Inside as StreamsInside};
ghost use Rattle.streams.specs.declared.live.Live.TheInside.{Inside as LiveInside};

/// What lies between calls in the streams that were opened, in the record of an active one, and in
/// the course of its request are numbers and flags, and no octet: each field is counted
/// (`specs/HeldInside`), also of each entry and record.
pub fn what_is_held_is_seen()
    ensures live { (live : LiveInside) → in_live live ≡ 0 }
    ensures streams { (streams : StreamsInside) → in_streams streams ≡ 0 }
{}
