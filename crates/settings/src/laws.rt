//! Laws: no octets lie in the settings of a peer.

ghost use Rattle.std.specs.Prelude.{◌≡◌};
ghost use Rattle.settings.specs.HeldInside.{in_settings};
ghost use Rattle.settings.specs.declared.Settings.TheInside.{Inside as SettingsInside};

/// What lies in the settings of a peer between calls is the number that a clause sees, and no
/// octet: each field is counted (`specs/HeldInside`).
pub fn what_is_held_is_seen()
    ensures { (settings : SettingsInside) → in_settings settings ≡ 0 }
{}
