//! Laws of what is exchanged on upstream connections, which may be kept for further requests (RFC 9112, section 9.3).

ghost use Rattle.std.specs.Prelude.{◌≡◌, ℕ, Bool, false, true, List, [], ◌∷◌, ◌++◌};
ghost use Rattle.model.specs.Setup.{Passing};
ghost use Rattle.model.specs.Logs.Event.{Up, UpEnd, UpFailed};
ghost use Rattle.model.specs.Tapes.{Entry, sent_up};
ghost use Rattle.model.specs.Admission.{is_open};
ghost use Rattle.model.specs.Responses.{Response, H1Response, IsComplete};
ghost use Rattle.model.specs.Deliveries.{Delivery};
ghost use Rattle.model.specs.Openings.{Opened, opens, exchanges, exchanges_of, exchange_on, sent_for, texts_of, AreApart, GoToOpen};
ghost use Rattle.model.specs.Available.{IsIn, IsShown};
ghost use Rattle.model.specs.Known.{Known};
ghost use Rattle.model.specs.Idle.{IsIdle};
ghost use Rattle.model.specs.Failures.{MayFail};
ghost use Rattle.model.specs.RequestClause.{BeginInTime, AreSentWhole, IsSent, RequestsHold};

/// Where no connection is kept, there are no exchanges but those that connections are opened for.
pub fn none_kept()
    ensures { (known : Known) (t : List Entry) → known.setup.keep ≡ false → BeginInTime known t → exchanges t ≡ opens t }
{}

/// Then each connection has the one exchange that it was opened for, and what it was sent is what
/// that was: its request, whole or in part.
pub fn each_alone()
    ensures newest { (known : Known) (t : List Entry) (o : Opened) → known.setup.keep ≡ false → RequestsHold known t → IsIn o (opens t)
        → exchange_on o.k t ≡ o }
    ensures sent { (known : Known) (t : List Entry) (o : Opened) → known.setup.keep ≡ false → RequestsHold known t → IsIn o (opens t) → GoToOpen t
        → sent_up o.k t ≡ sent_for o t }
    ensures reads { (known : Known) (t : List Entry) (o : Opened) → known.setup.keep ≡ false → RequestsHold known t → IsIn o (opens t) → GoToOpen t
        → IsSent known t (o ∷ []) (sent_for o t) }
{}

/// A connection that was opened has an exchange, and an open one its newest.
pub fn exchanges_there()
    ensures first { (o : Opened) (t : List Entry) → IsIn o (opens t) → IsIn o (exchanges t) }
    ensures newest { (k : ℕ) (t : List Entry) → is_open k t ≡ true → IsIn (exchange_on k t) (exchanges t) }
{}

/// What a connection was sent is what its exchanges were sent, one after another.
pub fn texts_joined()
    ensures { (k : ℕ) (t : List Entry) → AreApart (exchanges t) → GoToOpen t → sent_up k t ≡ texts_of (exchanges_of k (exchanges t)) t }
{}

/// Where connections are kept, what exchanges were sent, one after another, reads as their
/// requests, if that of each reads as its own.
pub fn requests_joined()
    ensures { (known : Known) (t : List Entry) (o : Opened) (os : List Opened) → known.setup.keep ≡ true → AreSentWhole known t os
        → IsSent known t (o ∷ []) (sent_for o t) → IsSent known t (o ∷ os) (texts_of (o ∷ os) t) }
{}

/// What stands past the end of a response that is whole before its connection ends changes nothing
/// of it (RFC 9112, section 6.3).
pub fn past_its_end()
    ensures whole { (text more : List ℕ) (ended to_head : Bool) (r : Response) → H1Response text false to_head r → H1Response (text ++ more) ended to_head r }
    ensures shown { (passing : Passing) (text more : List ℕ) (ended to_head : Bool) (d : Delivery) → IsComplete text false to_head
        → IsShown passing text false to_head d → IsShown passing (text ++ more) ended to_head d }
{}

/// No answer fails with what comes of an idle connection.
pub fn idle_never_fails()
    ensures octets { (known : Known) (t : List Entry) (k : ℕ) (piece : List ℕ) → IsIdle known t k → MayFail known t (Up k piece) → ⊥ }
    ensures ended { (known : Known) (t : List Entry) (k : ℕ) → IsIdle known t k → MayFail known t (UpEnd k) → ⊥ }
    ensures failed { (known : Known) (t : List Entry) (k : ℕ) → IsIdle known t k → MayFail known t (UpFailed k) → ⊥ }
{}
