//! Laws of what becomes of streams, and of the connection, along a tape (RFC 9113, sections 5.1 and 8.1).

ghost use Rattle.std.specs.Prelude.{◌≡◌, ℕ, true, false, List, [], ◌∷◌, Some};
ghost use Rattle.std.specs.List.{list_any};
ghost use Rattle.model.specs.Messages.{ends_with};
ghost use Rattle.model.specs.Tapes.{Noted, Entry, came};
ghost use Rattle.model.specs.Tapes.Entry.{Came, Sent};
ghost use Rattle.model.specs.Decoding.{completed};
ghost use Rattle.model.specs.Errors.{Fault};
ghost use Rattle.model.specs.Streams.{frame_items, items_of};
ghost use Rattle.model.specs.Known.{Known};
ghost use Rattle.model.specs.Lifetimes.{is_opened, is_over, is_active, is_ended_by_client};
ghost use Rattle.model.specs.ErrorClause.{must_end};
ghost use Rattle.model.specs.Courses.{course, items, fault};
ghost use Rattle.model.specs.Offers.{is_to_head};
ghost use Rattle.model.specs.Openings.{Opened, opens, given, AreNumbered};
ghost use Rattle.model.specs.Available.{IsIn};
ghost use Rattle.model.specs.Admission.{is_open};

/// What has become of a stream stays, whatever comes: it was opened, it is over, it isn't active
/// any more, the client ended it.
pub fn lives_stay()
    ensures opened { (t : List Entry) (e : Entry) (stream : ℕ) → is_opened stream t ≡ true → is_opened stream (e ∷ t) ≡ true }
    ensures over { (t : List Entry) (e : Entry) (stream : ℕ) → is_over stream t ≡ true → is_over stream (e ∷ t) ≡ true }
    ensures lost { (t : List Entry) (e : Entry) (stream : ℕ) → is_opened stream t ≡ true → is_active stream t ≡ false → is_active stream (e ∷ t) ≡ false }
    ensures ended { (t : List Entry) (e : Entry) (stream : ℕ) → is_ended_by_client stream t ≡ true → is_ended_by_client stream (e ∷ t) ≡ true }
{}

/// A connection that is to end still is when a frame is sent.
pub fn end_stays()
    ensures { (known : Known) (t : List Entry) (noted : Noted) → must_end known t ≡ true → must_end known (Sent noted ∷ t) ≡ true }
{}

/// The items of a stream stay with an entry that brings it none, with a frame on it that has a
/// fault or no item, and once they are over. Where it has items, whether its request has the method
/// HEAD stays.
pub fn items_stay()
    ensures none { (known : Known) (stream : ℕ) (t : List Entry) (e : Entry) → items_of stream t e ≡ [] → items known stream t ≡ items known stream (e ∷ t) }
    ensures by_fault { (known : Known) (t : List Entry) (noted : Noted) (found : Fault) → fault known t (Came noted) ≡ Some found
        → items known noted.frame.id (Came noted ∷ t) ≡ items known noted.frame.id t }
    ensures by_over { (known : Known) (t : List Entry) (noted : Noted) → (course known noted.frame.id t).over ≡ true
        → items known noted.frame.id (Came noted ∷ t) ≡ items known noted.frame.id t }
    ensures by_frame { (known : Known) (t : List Entry) (noted : Noted) → frame_items (completed (came t) noted.frame) noted ≡ []
        → items known noted.frame.id (Came noted ∷ t) ≡ items known noted.frame.id t }
    ensures method { (known : Known) (stream : ℕ) (t : List Entry) (e : Entry) → (items known stream t ≡ [] → ⊥)
        → is_to_head (items known stream t) ≡ is_to_head (items known stream (e ∷ t)) }
{}

/// The client ended a stream whose items come to an end.
pub fn ended_items()
    ensures { (known : Known) (stream : ℕ) (t : List Entry) → list_any ends_with (items known stream t) ≡ true → is_ended_by_client stream t ≡ true }
{}

/// A frame on another stream leaves a stream active or not; one that is sent makes none active.
pub fn active_streams()
    ensures sent { (t : List Entry) (noted : Noted) (stream : ℕ) → is_active stream (Sent noted ∷ t) ≡ true → is_active stream t ≡ true }
    ensures beside { (t : List Entry) (noted : Noted) (stream : ℕ) → (noted.frame.id ≡ stream → ⊥) → is_active stream (Sent noted ∷ t) ≡ is_active stream t }
    ensures came { (t : List Entry) (noted : Noted) (stream : ℕ) → (noted.frame.id ≡ stream → ⊥) → is_active stream (Came noted ∷ t) ≡ is_active stream t }
{}

/// A connection's number tells the stream that it was given to, and is above 0; an open connection was opened.
pub fn connections_given()
    ensures stream { (opens : List Opened) (o : Opened) → AreNumbered opens → IsIn o opens → given o.k opens ≡ o.stream }
    ensures above { (opens : List Opened) (o : Opened) → AreNumbered opens → IsIn o opens → o.k ≡ 0 → ⊥ }
    ensures open { (k : ℕ) (t : List Entry) → is_open k t ≡ true → (o : Opened) × IsIn o (opens t) × (o.k ≡ k) }
{}
