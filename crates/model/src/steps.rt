//! What an entry more changes of what a tape leaves (RFC 9113, sections 5.1 and 5.4).

ghost use Rattle.std.specs.Prelude.{◌≡◌, ℕ, Bool, true, false, ◌==◌, List, []};
ghost use Rattle.std.specs.List.{list_any};
ghost use Rattle.model.specs.Logs.{Act};
ghost use Rattle.model.specs.Tapes.{Noted, Entry};
ghost use Rattle.model.specs.Tapes.Entry.{Sent, Did};
ghost use Rattle.model.specs.Known.{Known};
ghost use Rattle.model.specs.Lifetimes.{may_open};
ghost use Rattle.model.specs.ErrorClause.{owed_by, is_passing};

/// An act calls for nothing, nor does a frame to the client that is no part of a response and gives no octets back.
pub fn silent_entries()
    ensures acts { (known : Known) (t : List Entry) (act : Act) → owed_by known t (Did act) ≡ [] }
    ensures controls { (known : Known) (t : List Entry) (noted : Noted) → is_passing noted ≡ false → owed_by known t (Sent noted) ≡ [] }
{}

/// A stream that was opened may not be opened again (RFC 9113, section 5.1.1).
pub fn opened_for_good()
    ensures { (drained : Bool) (opened : List ℕ) (id : ℕ) → list_any (λ other. other == id) opened ≡ true → may_open drained opened id ≡ false }
{}
