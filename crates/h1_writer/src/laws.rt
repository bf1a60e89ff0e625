//! What a sender's text means, each as the contract of a function with an empty body.

ghost use Rattle.std.specs.Prelude.{◌≡◌, ℕ, Bool, List, []};
ghost use Rattle.std.specs.List.{concat};
ghost use Rattle.model.specs.Octets.{IsFront};
ghost use Rattle.model.specs.Http1.{H1Kept, BeginsNoRequest, forward};
ghost use Rattle.model.specs.Messages.{Field};
ghost use Rattle.model.specs.Http2.{HasLength, WellFormedTrailers, passed_trailers};
ghost use Rattle.request_rules.specs.Heads.{HeadParts, IsRequestHead, request_with};
ghost use Rattle.h1_writer.specs.Sending.{Stage, Sending, MayPush, MayFinish, HasRoom, GoesOnTo, LacksAtMostOne};
ghost use Rattle.h1_writer.specs.Sending.Stage.{Whole};

/// A whole text reads as its request with the body that was pushed, and with the trailers that are
/// passed on of those that came, forwarded (RFC 9112, sections 2.1 and 7.1.2).
pub fn whole_is_read()
    ensures { (keep : Bool) (parts : HeadParts) (ended : Bool) (text : List ℕ) (pieces : List (List ℕ)) (trailers : List Field) → IsRequestHead parts
        → WellFormedTrailers trailers → Sending keep parts ended text pieces (passed_trailers trailers) Whole
        → H1Kept keep text (forward (request_with parts (concat pieces) (passed_trailers trailers))) }
{}

/// A text that isn't whole is a strict front of a text of the request with every body that begins
/// with what was pushed and is as long as declared, and with any trailers; and no beginning of it
/// is a request.
pub fn unfinished_goes_on()
    ensures front { (keep : Bool) (parts : HeadParts) (ended : Bool) (text : List ℕ) (pieces : List (List ℕ)) (stage : Stage) (body : List ℕ)
        (trailers : List Field) → IsRequestHead parts → WellFormedTrailers trailers → Sending keep parts ended text pieces [] stage → (stage ≡ Whole → ⊥)
        → IsFront (concat pieces) body → HasLength parts.length body → GoesOnTo keep parts text body (passed_trailers trailers) }
    ensures none { (keep : Bool) (parts : HeadParts) (ended : Bool) (text : List ℕ) (pieces : List (List ℕ)) (stage : Stage) → IsRequestHead parts
        → Sending keep parts ended text pieces [] stage → (stage ≡ Whole → ⊥) → BeginsNoRequest text }
{}

/// Octets may be pushed as long as they are no more than declared, and the text may be ended once they are so many.
pub fn room_and_end()
    ensures room { (keep : Bool) (parts : HeadParts) (ended : Bool) (text : List ℕ) (pieces : List (List ℕ)) (stage : Stage) (count : ℕ)
        → Sending keep parts ended text pieces [] stage → (stage ≡ Whole → ⊥) → HasRoom parts.length pieces count → MayPush stage count }
    ensures end { (keep : Bool) (parts : HeadParts) (ended : Bool) (text : List ℕ) (pieces : List (List ℕ)) (stage : Stage)
        → Sending keep parts ended text pieces [] stage → (stage ≡ Whole → ⊥) → HasLength parts.length (concat pieces) → MayFinish stage }
{}

/// With what is missing, an octet at most and that the last of a declared length, a text holds its
/// whole head and all octets that were pushed.
pub fn lacks_at_most_one()
    ensures { (keep : Bool) (parts : HeadParts) (ended : Bool) (text : List ℕ) (pieces : List (List ℕ)) (trailers : List Field) (stage : Stage)
        → Sending keep parts ended text pieces trailers stage → LacksAtMostOne keep parts ended text pieces }
{}
