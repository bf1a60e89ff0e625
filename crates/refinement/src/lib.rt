//! A client's session, and the rule that it follows: what each part of a step has to show, so that
//! what the contracts of the session's parts say leads to moves of `theory`.
//!
//! What its parts (`connection_state`, `send_queue`, `upstream_connections`, `window_credit`, an
//! encoder) keep is seen together as a `View`; `Leads` says how that stands to the rule's state,
//! behind moves and with what is pending in the midst of a step: frames that are owed, a connection
//! or a text that is due, octets that are to go back. A part of a step *performs* (`Performs`):
//! wherever moves led to what was kept, moves by the rule lead on to what is kept now, and put out
//! what was put out. Parts behind one another perform together ([`parts_follow`]).
#![tactic(auto)]

mod session;

ghost use Rattle.std.specs.Prelude.{◌≡◌, ◌≤◌, ◌==◌, ℕ, false, List, [], ◌++◌, length, map, reverse, Some, None};
ghost use Rattle.model.specs.Messages.{Field, Item};
ghost use Rattle.model.specs.Frames.{Frame};
ghost use Rattle.model.specs.Logs.{Output};
ghost use Rattle.model.specs.Setup.{Setup};
ghost use Rattle.model.specs.Tables.{Table};
ghost use Rattle.model.specs.Tapes.{Entry, Noted};
ghost use Rattle.model.specs.Tapes.Note.{Fields};
ghost use Rattle.model.specs.Tapes.Entry.{Came};
ghost use Rattle.model.specs.Decoding.{Partial};
ghost use Rattle.model.specs.Limits.{most_streams};
ghost use Rattle.model.specs.Errors.{Fault};
ghost use Rattle.model.specs.ErrorClause.{is_fatal};
ghost use Rattle.model.specs.Known.{Known};
ghost use Rattle.theory_errors.specs.Judging.{active_in, completed_in};
ghost use Rattle.theory_errors.specs.Owing.{fault_in, last_goaway_in, owes_in};
ghost use Rattle.theory_errors.specs.Rows.{ids_of, find};
ghost use Rattle.theory_errors.specs.Quiet.{noted_of};
ghost use Rattle.theory_errors.specs.Book.{Book, summary_in, book_after};
ghost use Rattle.theory_errors.specs.Tidy.{AreKept};
ghost use Rattle.theory_responses.specs.Outbox.{Part};
ghost use Rattle.theory_responses.specs.Rule.{BeginsNext};
ghost use Rattle.theory_responses.specs.Sight.{sight_in};
ghost use Rattle.theory_requests.specs.Rule.{MayOpen, MayUse};
ghost use Rattle.connection_state.specs.Judgement.{IsPlain, IsTaken};
ghost use Rattle.connection_state.specs.Blocks.{SaysOf};
ghost use Rattle.connection_state.specs.Fragments.{IsOfBlock};
ghost use Rattle.connection_state.specs.declared.answers.Judged.{Judged};
ghost use Rattle.connection_state.specs.declared.answers.BlockJudged.{BlockJudged};
ghost use Rattle.theory.specs.Moves.{Addition, Move};
ghost use Rattle.theory.specs.Moves.Decision.{Takes, Sends, Goes};
ghost use Rattle.theory.specs.Moves.Move.{Does};
ghost use Rattle.theory.specs.State.{State};
ghost use Rattle.theory.specs.Rule.{added_in};
ghost use Rattle.theory.specs.Coming.{IsReady};
ghost use Rattle.theory.specs.Steps.{told_by, MayGoOn};
ghost use Rattle.refinement.specs.Additions.{IsPlainAddition, IsBlockAddition};
ghost use Rattle.refinement.specs.Owed.{owed_for, owed_with_block, owed_at_fault};
ghost use Rattle.refinement.specs.Taking.{IsFrameTaken};
ghost use Rattle.refinement.specs.Passing.{PartGoes, FragmentGoes};
ghost use Rattle.refinement.specs.Led.{IsLed};
ghost use Rattle.refinement.specs.Others.{SameOf};
ghost use Rattle.refinement.specs.View.{View, Pending, balanced, Leads};
ghost use Rattle.refinement.specs.Performing.{Performs};
ghost use Rattle.refinement.specs.Bringing.{Brings, PerformsOwn};
ghost use Rattle.refinement.specs.Rest.{IsAtRest};

pub use crate::session::Session;

/// What a frame of the client that has no fault gains its stream's request follows from the
/// judgement's answer: octets of the body, a head, trailers, or nothing (RFC 9113, section 8.1).
/// One that has a fault gains nothing.
pub fn frames_addition()
    ensures plain { (setup : Setup) (book : Book) (frame : Frame) → IsPlain frame → length (ids_of book.rows) ≤ most_streams
        → (new : Book) (answer : Judged) → IsTaken setup book frame new answer → IsPlainAddition setup (summary_in book) (noted_of frame) answer }
    ensures block { (setup : Setup) (book : Book) (noted : Noted) → IsOfBlock noted.frame → length (ids_of book.rows) ≤ most_streams
        → fault_in (summary_in book) (Came noted) ≡ None → (completed : Partial) → completed_in book.block noted.frame ≡ Some completed
        → (fields : List Field) → noted.note ≡ Fields fields → (answer : BlockJudged)
        → SaysOf setup (find book.rows noted.frame.id).outline fields completed.ends answer
        → IsBlockAddition setup (summary_in book) noted fields completed.ends answer }
    ensures part { (setup : Setup) (book : Book) (noted : Noted) → IsOfBlock noted.frame → length (ids_of book.rows) ≤ most_streams
        → completed_in book.block noted.frame ≡ None → added_in setup (summary_in book) noted ≡ [] }
    ensures failed { (setup : Setup) (book : Book) (noted : Noted) → IsOfBlock noted.frame → length (ids_of book.rows) ≤ most_streams → (fault : Fault)
        → fault_in (summary_in book) (Came noted) ≡ Some fault → added_in setup (summary_in book) noted ≡ [] }
{}

/// What a frame of the client calls for follows from the answer too: an acknowledgement, a reset of
/// its stream, and the GOAWAY of the last stream that a connection may have (RFC 9113, sections
/// 5.4.2, 6.5.3, 6.7 and 6.8).
pub fn frames_call_for()
    ensures plain { (setup : Setup) (book : Book) (frame : Frame) → IsPlain frame → (new : Book) (answer : Judged) → IsTaken setup book frame new answer
        → owes_in setup false (summary_in book) (Came (noted_of frame)) ≡ owed_for frame.id (find book.rows frame.id).head_out answer }
    ensures plain_failed { (setup : Setup) (book : Book) (frame : Frame) → IsPlain frame → (fault : Fault) → is_fatal (Some fault) ≡ false
        → fault_in (summary_in book) (Came (noted_of frame)) ≡ Some fault
        → owes_in setup false (summary_in book) (Came (noted_of frame)) ≡ owed_at_fault frame.id fault }
    ensures block { (setup : Setup) (book : Book) (noted : Noted) → IsOfBlock noted.frame → length (ids_of book.rows) ≤ most_streams
        → fault_in (summary_in book) (Came noted) ≡ None → (completed : Partial) → completed_in book.block noted.frame ≡ Some completed
        → (fields : List Field) → noted.note ≡ Fields fields → (answer : BlockJudged)
        → SaysOf setup (find book.rows noted.frame.id).outline fields completed.ends answer
        → owes_in setup false (summary_in book) (Came noted) ≡ last_goaway_in (summary_in book) (Came noted)
        ++ owed_with_block noted.frame.id (find book.rows noted.frame.id).head_out answer }
    ensures part { (setup : Setup) (book : Book) (noted : Noted) → IsOfBlock noted.frame → length (ids_of book.rows) ≤ most_streams
        → fault_in (summary_in book) (Came noted) ≡ None → completed_in book.block noted.frame ≡ None
        → owes_in setup false (summary_in book) (Came noted) ≡ [] }
    ensures block_failed { (setup : Setup) (book : Book) (noted : Noted) → IsOfBlock noted.frame → length (ids_of book.rows) ≤ most_streams
        → (fault : Fault) → is_fatal (Some fault) ≡ false → fault_in (summary_in book) (Came noted) ≡ Some fault
        → owes_in setup false (summary_in book) (Came noted) ≡ last_goaway_in (summary_in book) (Came noted) ++ owed_at_fault noted.frame.id fault }
{}

/// A frame of the client that is no error of the connection comes by the rule where the gateway
/// rests, and leaves what is told of every other stream.
pub fn frames_may_come()
    ensures may { (setup : Setup) (s : State) → IsReady s → (noted : Noted) (next : Table) (addition : Addition) → IsFrameTaken setup s noted next addition
        → MayGoOn setup s (Does (Takes noted next addition)) }
    ensures others { (setup : Setup) (book : Book) (noted : Noted) → is_fatal (fault_in (summary_in book) (Came noted)) ≡ false → AreKept book.rows
        → (other : ℕ) → (noted.frame.id == other) ≡ false → SameOf book (book_after setup false book (Came noted)) other }
{}

/// A frame of a response goes by the rule: one with which the next part of the stream whose turn it
/// is is complete, and one of a header block that goes on in the next frame.
pub fn parts_may_go()
    ensures part { (setup : Setup) (s : State) (noted : Noted) (item : Item) (part : Part) (next : Table) → s.ledger.book.ends ≡ false
        → PartGoes s noted item part next → MayGoOn setup s (Does (Goes noted item part next)) }
    ensures fragment { (setup : Setup) (s : State) (noted : Noted) (next : Table) → s.ledger.book.ends ≡ false → FragmentGoes s noted next
        → MayGoOn setup s (Does (Sends noted next)) }
{}

/// Where moves led, outboxes are kept of just the active streams, in the order in which they were
/// opened; and the next connection is opened for the stream of the last frame, or an idle one is
/// given to it, as the rule asks.
pub fn states_are_sound()
    ensures boxes { (known : Known) (run : List Move) (s : State) → IsLed known run s → map (λ k. k.id) s.offers.kept ≡ reverse (active_in (told_by s)) }
    ensures opens { (known : Known) (run : List Move) (s : State) → IsLed known run s → (k route : ℕ) → MayOpen s.requests k route
        → BeginsNext (sight_in (told_by s)) k }
    ensures uses { (known : Known) (run : List Move) (s : State) → IsLed known run s → (k : ℕ) (octets : List ℕ) → MayUse s.requests k octets
        → BeginsNext (sight_in (told_by s)) k }
{}

/// Parts of a step behind one another perform together; and doing nothing performs.
pub fn parts_follow()
    ensures none { (setup : Setup) (kept : View) (pending : Pending) (outputs : List Output) → Performs setup kept pending outputs kept pending outputs }
    ensures together { (setup : Setup) (a b c : View) (x y z : Pending) (o p q : List Output) → Performs setup a x o b y p → Performs setup b y p c z q
        → Performs setup a x o c z q }
{}

/// Parts of a step with which nothing comes in follow one another, and behind a part with which
/// something does; doing nothing is such a part.
pub fn courses_follow()
    ensures none { (setup : Setup) (kept : View) (pending : Pending) (outputs : List Output) → PerformsOwn setup kept pending outputs kept pending outputs }
    ensures own { (setup : Setup) (a b c : View) (x y z : Pending) (o p q : List Output) → PerformsOwn setup a x o b y p → PerformsOwn setup b y p c z q
        → PerformsOwn setup a x o c z q }
    ensures brings { (setup : Setup) (a b c : View) (x y z : Pending) (o p q : List Output) (entry : Entry) → Brings setup a x o entry b y p
        → PerformsOwn setup b y p c z q → Brings setup a x o entry c z q }
{}

/// Where moves led to what is kept, nothing is pending, and what is kept is at rest, something may come in.
pub fn rests_are_ready()
    ensures { (setup : Setup) (run : List Move) (kept : View) (s : State) → Leads setup run kept balanced s → IsAtRest kept → IsReady s }
{}
