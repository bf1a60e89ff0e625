//! A law of scripts.

ghost use Rattle.std.specs.Prelude.{◌≡◌, List, ℕ};
ghost use Rattle.model.specs.Logs.{Event};
ghost use Rattle.replay.specs.Scripts.{Says, AllSay};

/// A script means one thing: a line says at most one event, so the lines of a script say one list of events.
pub fn one_meaning()
    ensures line { (line : List ℕ) (event other : Event) → Says line event → Says line other → event ≡ other }
    ensures script { (lines : List (List ℕ)) (events others : List Event) → AllSay lines events → AllSay lines others → events ≡ others }
{}
