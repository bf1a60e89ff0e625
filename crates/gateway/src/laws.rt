//! Laws: what lies in a gateway is what a clause sees of it.

ghost use Rattle.std.specs.Prelude.{◌≡◌, ◌+◌};
ghost use Rattle.gateway.specs.Held.{held_in};
ghost use Rattle.gateway.specs.HeldInside.{in_gateway, in_routes};
ghost use Rattle.gateway.specs.declared.gateway.Gateway.TheInside.{Inside};
ghost use Rattle.gateway.specs.declared.gateway.Gateway.TheView.{view};

/// What lies in a gateway between calls is what a clause sees of it, the routes of its
/// configuration with it, and no octet more: each field is counted (`specs/HeldInside`). So
/// whoever bounds what is seen bounds what is held.
pub fn what_is_held_is_seen()
    ensures { (gateway : Inside) → in_gateway gateway ≡ in_routes (view gateway).routes + held_in (view gateway) }
{}
