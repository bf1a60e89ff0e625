//! Laws of what the clauses of the headline speak of.

ghost use Rattle.std.specs.Prelude.{◌≡◌, ℕ, ◌≤◌, Bool, List, length, false, true, Some, slice_get};
ghost use Rattle.model.specs.Messages.{Item, Field};
ghost use Rattle.model.specs.Deliveries.{Delivery, ReadsAs};
ghost use Rattle.model.specs.Openings.{Opened, exchanges, AreNumbered, AreApart};
ghost use Rattle.model.specs.Available.{IsIn, IsShown};
ghost use Rattle.model.specs.Http2.{WellFormedHead, WellFormedTrailers, authority_of, path_of};
ghost use Rattle.model.specs.Malformed.{is_well_formed, are_trailers};
ghost use Rattle.model.specs.Setup.{Passing, Route, Matches, IsFirstMatch};
ghost use Rattle.model.specs.Causes.{is_routed};
ghost use Rattle.model.specs.Tapes.{Noted, Entry, came};
ghost use Rattle.model.specs.Decoding.{completed};
ghost use Rattle.model.specs.Lifetimes.{is_drained, opens_by, opened, is_opened};
ghost use Rattle.model.specs.Failures.{AreJudged};
ghost use Rattle.model.specs.Known.{Known, with_failure};
ghost use Rattle.model.specs.Courses.{course};
ghost use Rattle.model.specs.Offers.{IsOffered};

/// A client that was brought the items of a stream has read one thing of a response (RFC 9113, section 8.1).
pub fn one_delivery()
    ensures { (items : List Item) (delivery other : Delivery) → ReadsAs items delivery → ReadsAs items other → delivery ≡ other }
{}

/// Connections that are numbered as they are opened, and of which no stream has two: a number is
/// one connection's, and so is a stream.
pub fn one_connection()
    ensures number { (opens : List Opened) (o p : Opened) → AreNumbered opens → IsIn o opens → IsIn p opens → o.k ≡ p.k → o ≡ p }
    ensures stream { (opens : List Opened) (o p : Opened) → AreApart opens → IsIn o opens → IsIn p opens → o.stream ≡ p.stream → o ≡ p }
{}

/// One thing is shown of what an upstream answered, however responses are passed on.
pub fn one_shown()
    ensures { (passing : Passing) (text : List ℕ) (ended to_head : Bool) (d e : Delivery) → IsShown passing text ended to_head d
        → IsShown passing text ended to_head e → d ≡ e }
{}

/// One thing is on offer for a stream, where no stream was given two connections.
pub fn one_offer()
    ensures { (known : Known) (t : List Entry) (stream : ℕ) (d e : Delivery) → AreApart (exchanges t) → IsOffered known t stream d
        → IsOffered known t stream e → d ≡ e }
{}

/// A stream is opened once, and none has the id 0 (RFC 9113, section 5.1.1).
pub fn opened_once()
    ensures fresh { (t : List Entry) (noted : Noted) → opens_by (is_drained t) (opened t) (completed (came t) noted.frame) noted.note ≡ true
        → is_opened noted.frame.id t ≡ false }
    ensures not_zero { (t : List Entry) → is_opened 0 t ≡ false }
{}

/// The tests by which the error table finds a malformed head and malformed trailers pass just where
/// all rules hold (RFC 9113, sections 8.1 to 8.3).
pub fn malformed_tests()
    ensures head { (head : List Field) → is_well_formed head ≡ true → WellFormedHead head }
    ensures head_passes { (head : List Field) → WellFormedHead head → is_well_formed head ≡ true }
    ensures trailers { (fields : List Field) → are_trailers fields ≡ true → WellFormedTrailers fields }
    ensures trailers_pass { (fields : List Field) → WellFormedTrailers fields → are_trailers fields ≡ true }
{}

/// The test by which a request has a route passes just where a route matches, and then there is a first one.
pub fn routed_test()
    ensures first { (routes : List Route) (head : List Field) → is_routed routes head ≡ true → (place : ℕ)
        × IsFirstMatch routes (authority_of head) (path_of head) place }
    ensures passes { (routes : List Route) (head : List Field) (place : ℕ) (route : Route) → slice_get routes place ≡ Some route
        → Matches route (authority_of head) (path_of head) → is_routed routes head ≡ true }
{}

/// What becomes of a stream on a tape doesn't change with a failure that is known of a later place.
pub fn later_failure()
    ensures { (place : ℕ) (known : Known) (stream : ℕ) (t : List Entry) → length t ≤ place
        → course (with_failure place known) stream t ≡ course known stream t }
{}

/// What is judged of a tape's failures stays right with a failure that is known of a later place.
pub fn later_verdicts()
    ensures { (place : ℕ) (known : Known) (t : List Entry) → length t ≤ place → AreJudged known t → AreJudged (with_failure place known) t }
{}
