//! Laws: what lies in an answer is what a clause sees of it.

ghost use Rattle.std.specs.Prelude.{◌≡◌};
ghost use Rattle.upstream_response.specs.HeldInside.{octets_of, in_answer};
ghost use Rattle.upstream_response.specs.declared.answer.Answer.TheInside.{Inside};
ghost use Rattle.upstream_response.specs.declared.answer.Answer.TheView.{view};

/// What lies in an answer between calls is what a clause sees of it, and no octet more: each field
/// is counted (`specs/HeldInside`). So whoever bounds what is seen bounds what is held.
pub fn what_is_held_is_seen()
    ensures { (answer : Inside) → in_answer answer ≡ octets_of (view answer) }
{}
