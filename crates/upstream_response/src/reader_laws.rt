//! What a reader of an upstream's answer tells: news of what is on offer for its stream, and
//! whether the answer failed.
//!
//! That the reader stands for all that was heard, that it hears octets or breaks, and what its end
//! is, are the contracts of `h1_reader`; that its request asks for a head alone is the caller's.

ghost use Rattle.std.specs.Prelude.{◌≡◌, ◌++◌, ◌<◌, ◌≤◌, ℕ, List, length, true, false};
ghost use Rattle.model.specs.Responses.{IsComplete};
ghost use Rattle.model.specs.Setup.{Setup, Passing};
ghost use Rattle.model.specs.Setup.Passing.{Whole};
ghost use Rattle.model.specs.Logs.Event.{Up, UpEnd};
ghost use Rattle.model.specs.Tapes.{Entry};
ghost use Rattle.model.specs.Openings.{exchange_on};
ghost use Rattle.model.specs.Available.{heard_by};
ghost use Rattle.model.specs.Known.{Known};
ghost use Rattle.model.specs.Failures.{IsJudged, AreJudged};
ghost use Rattle.model.specs.Idle.{is_asked_for_head};
ghost use Rattle.theory_errors.specs.Rule.{Move, tape_of, known_of};
ghost use Rattle.h1_reader.specs.Parts.{Part};
ghost use Rattle.h1_reader.specs.Standing.{State, Stands, Hears, Breaks, IsEnd, is_done};
ghost use Rattle.h1_reader.specs.declared.reader.Ended.TheVariants.{Complete, Short};
ghost use Rattle.theory_responses.specs.Shown.{Tells};
ghost use Rattle.upstream_response.specs.Verdicts.{AreRightVerdicts};
ghost use Rattle.upstream_response.specs.Telling.{body_of, news_of, news_at_end};

/// What a reader tells of further octets, and of the connection's end where that makes the response
/// whole, is news of what is on offer for its stream.
pub fn reader_tells()
    ensures hears { (passing : Passing) (text octets : List ℕ) (parts added : List Part) (old new : State) → Stands text parts old
        → Hears old octets added new → is_done parts ≡ false → Tells passing text false (text ++ octets) false old.to_head (news_of passing parts added) }
    ensures ends { (passing : Passing) (text : List ℕ) (parts : List Part) (state : State) → Stands text parts state → is_done parts ≡ false
        → IsComplete text true state.to_head → Tells passing text false text true state.to_head (news_at_end passing parts) }
{}

/// A reader stands for all that was heard of an upstream. Where it goes on, and the body isn't
/// longer than what is kept where responses are passed on whole, no answer failed; where it breaks,
/// or the body is longer, one did; and the connection's end is no failure just where it makes the
/// response whole.
pub fn reader_judges()
    ensures goes_on { (known : Known) (t : List Entry) (k : ℕ) (piece : List ℕ) (parts added : List Part) (old new : State)
        → old.to_head ≡ is_asked_for_head known (exchange_on k t) t → Stands (heard_by (exchange_on k t) t) parts old → Hears old piece added new
        → (known.setup.passing ≡ Whole → length (body_of (parts ++ added)) ≤ known.setup.max_response) → IsJudged known t (Up k piece) false }
    ensures too_long { (known : Known) (t : List Entry) (k : ℕ) (piece : List ℕ) (parts added : List Part) (old new : State)
        → old.to_head ≡ is_asked_for_head known (exchange_on k t) t → Stands (heard_by (exchange_on k t) t) parts old → Hears old piece added new
        → known.setup.passing ≡ Whole → known.setup.max_response < length (body_of (parts ++ added)) → IsJudged known t (Up k piece) true }
    ensures breaks { (known : Known) (t : List Entry) (k : ℕ) (piece : List ℕ) (parts : List Part) (old : State)
        → old.to_head ≡ is_asked_for_head known (exchange_on k t) t → Stands (heard_by (exchange_on k t) t) parts old → Breaks old piece
        → IsJudged known t (Up k piece) true }
    ensures ends { (known : Known) (t : List Entry) (k : ℕ) (parts : List Part) (old : State) → old.to_head ≡ is_asked_for_head known (exchange_on k t) t
        → Stands (heard_by (exchange_on k t) t) parts old → IsEnd Complete old → IsJudged known t (UpEnd k) false }
    ensures ends_short { (known : Known) (t : List Entry) (k : ℕ) (parts : List Part) (old : State)
        → old.to_head ≡ is_asked_for_head known (exchange_on k t) t → Stands (heard_by (exchange_on k t) t) parts old → IsEnd Short old
        → IsJudged known t (UpEnd k) true }
{}

/// Where each move says rightly whether an answer failed with it, by what was known before,
/// failures are judged rightly on the tape.
pub fn verdicts_hold()
    ensures { (setup : Setup) (moves : List Move) → AreRightVerdicts setup moves → AreJudged (known_of setup moves) (tape_of moves) }
{}
