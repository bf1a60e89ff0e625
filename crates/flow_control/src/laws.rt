//! Laws: no octets lie in a window.

ghost use Rattle.std.specs.Prelude.{◌≡◌};
ghost use Rattle.flow_control.specs.HeldInside.{in_window};
ghost use Rattle.flow_control.specs.declared.Window.TheInside.{Inside as WindowInside};

/// What lies in a window between calls is the number that a clause sees, and no octet: each field
/// is counted (`specs/HeldInside`).
pub fn what_is_held_is_seen()
    ensures { (window : WindowInside) → in_window window ≡ 0 }
{}
