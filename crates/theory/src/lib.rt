//! The rule of the whole gateway: what it keeps, which move may come, and that whoever keeps the
//! rule keeps the headline.
//!
//! What is kept is a field for each concern (`State`). A move is an entry of the tape with what is
//! decided there, or the end of the effect of what came last (`Move`); from it follows the move of
//! each concern, so nothing is decided twice. `MayDo` says which move may come, by the state and by
//! what the book tells before and behind it, and names no tape. Something comes in only where the
//! gateway rests (`Rests`).
//!
//! The law is [`headline_holds`]. Its premises, and where each comes from:
//! - `AllAllowed`: each move came by the rule, which whoever performs a move shows there;
//! - `AreKnown`: what is known of failures is what the moves say; `theory_errors::errors_hold`
//!   gives it of what they say themselves;
//! - `AreAnswered`: what moves say of upstreams' answers is so, by the contract of the reader that
//!   the octets go through (`upstream_response`) and by what is kept ([`answers_are_told`],
//!   [`idle_connections_are_told`]);
//! - `RestsBehind`: the step ends where the gateway rests.
#![tactic(auto)]

ghost use Rattle.std.specs.Prelude.{◌≡◌, ◌<◌, ◌≤◌, ◌^◌, ℕ, length, Bool, true, false, ◌++◌, List, ◌∷◌, reverse, Some, None};
ghost use Rattle.model.specs.Setup.{Setup};
ghost use Rattle.model.specs.Setup.Passing.{Streaming};
ghost use Rattle.model.specs.Limits.{most_active};
ghost use Rattle.model.specs.Logs.{Event, Act, Step};
ghost use Rattle.model.specs.Logs.Event.{ClientEnd, Up, UpEnd, UpFailed};
ghost use Rattle.model.specs.Tables.{Table};
ghost use Rattle.model.specs.Courses.{upstream_of};
ghost use Rattle.theory_receive_windows.specs.Policy.{may_come};
ghost use Rattle.model.specs.Admission.{is_open};
ghost use Rattle.model.specs.Openings.{exchange_on};
ghost use Rattle.model.specs.Available.{heard_by, ended_by};
ghost use Rattle.model.specs.Idle.{is_asked_for_head, IsAllHeard, IsIdle};
ghost use Rattle.model.specs.Noticing.{IsPlainlyBad};
ghost use Rattle.model.specs.Known.{Known};
ghost use Rattle.model.specs.Tapes.{Noted, Breach, Entry, is_closed, EndsWithClose};
ghost use Rattle.model.specs.Tapes.Entry.{Happened};
ghost use Rattle.model.specs.Failures.{AreJudged};
ghost use Rattle.model.specs.Headline.{ClausesHold, HoldsInTurn, Headline};
ghost use Rattle.model.specs.Synchrony.{InStep};
ghost use Rattle.model.specs.Deliveries.{Delivery};
ghost use Rattle.theory_errors.specs.Rule.{AreKnown};
ghost use Rattle.theory_responses.specs.Held.{FitRooms};
ghost use Rattle.theory_requests.specs.Held.{held_octets};
ghost use Rattle.theory_requests.specs.Lines.{Line, line_of, Heard};
ghost use Rattle.theory_requests.specs.Lines.Answer.{Pending, Idle};
ghost use Rattle.theory_requests.specs.Lines.Heard.{Keepable, Finished};
ghost use Rattle.theory_requests.specs.State.{Held, held_of};
ghost use Rattle.theory.specs.Moves.{Addition, Decision, Move};
ghost use Rattle.theory.specs.Moves.Addition.{Nothing};
ghost use Rattle.theory.specs.Moves.Move.{Does};
ghost use Rattle.theory.specs.Moves.Decision.{Takes, Breaks, Notes, Hears, Fails, Idles, Sends};
ghost use Rattle.theory.specs.State.{State, gates_in, conducts, tape_of, state_of};
ghost use Rattle.theory.specs.Rule.{rooms_in, MayDo, AllAllowed, RestsBehind};
ghost use Rattle.theory.specs.Answered.{IsHeardBy, LeavesIdle, IsAnswered, AreAnswered};
ghost use Rattle.theory.specs.Steps.{told_by, told_behind, next, MayGoOn, Leads, Stands, AreAnsweredBy};
ghost use Rattle.theory.specs.Coming.{IsReady, MayTake, MayHear, MayFail, MayIdle};
ghost use Rattle.theory.specs.Going.{IsOwedNext, GivesBack, Acts};
ghost use Rattle.theory.specs.Held.{held_on_connection, held_for, held_in_all, most_on_connection, most_for_stream, most_in_all};
ghost use Rattle.theory.specs.Ending.{IsFatal, IsCrowded, calming_of, ending_of, Ends};

/// Whoever keeps the rule keeps the headline: its six clauses wherever the gateway rests, and
/// before each thing that comes in; what is known of failures is right, and nothing stands behind
/// the client's close. So it is for both policies, and however requests and responses are passed
/// on.
pub fn headline_holds()
    ensures clauses { (known : Known) (run : List Move) → AreKnown known (conducts run) → AllAllowed known.setup run → AreAnswered known run
        → RestsBehind known.setup run → ClausesHold known (tape_of run) }
    ensures in_turn { (known : Known) (run : List Move) → AreKnown known (conducts run) → AllAllowed known.setup run → AreAnswered known run
        → HoldsInTurn (ClausesHold known) (tape_of run) }
    ensures judged { (known : Known) (run : List Move) → AreKnown known (conducts run) → AreAnswered known run → AreJudged known (tape_of run) }
    ensures ends { (known : Known) (run : List Move) → AreKnown known (conducts run) → AllAllowed known.setup run → EndsWithClose (tape_of run) }
{}

/// Wherever the gateway rests, its header tables are those of the other side, blocks are written as
/// the policy says, each block that came was read or is one that needs no reading, and turns were
/// fair.
pub fn in_step()
    ensures { (known : Known) (run : List Move) → AreKnown known (conducts run) → AllAllowed known.setup run → AreAnswered known run
        → RestsBehind known.setup run → InStep known (tape_of run) (state_of known.setup run).tables.encoding.table
        (state_of known.setup run).tables.decoding }
{}

/// A log each of whose steps is answered by moves that came by the rule has the headline, and with
/// it tables are in step at the end of each step ([`in_step`]).
pub fn log_has_headline()
    ensures { (known : Known) (log : List Step) (run : List Move) → AreKnown known (conducts run) → AllAllowed known.setup run → AreAnswered known run
        → AreAnsweredBy known (reverse log) run → Headline known.setup log }
{}

/// While the connection goes on a move may come by what is kept alone, and what is kept behind it
/// follows from that. So whoever performs moves shows them one by one, and stands where they lead.
pub fn states_lead()
    ensures one { (setup : Setup) (run : List Move) (s : State) (m : Move) → Stands setup run s → MayGoOn setup s m → Stands setup (m ∷ run) (next setup s m) }
    ensures all { (setup : Setup) (run : List Move) (old new : State) (moves : List Move) → Stands setup run old → Leads setup old moves new
        → Stands setup (moves ++ run) new }
    ensures further { (setup : Setup) (old s new : State) (first later : List Move) → Leads setup old first s → Leads setup s later new
        → Leads setup old (later ++ first) new }
{}

/// Where the gateway rests and its connection goes on, what comes in has its move: octets that
/// depart from the preface or a length that is too long; an event of no upstream's answer that may
/// come by its numbers; a frame, where its note is right, and what it gains is so; an answer of an
/// open connection, that fails or doesn't; and what comes of an idle one.
pub fn inputs_have_moves()
    ensures breach { (setup : Setup) (s : State) (breach : Breach) → IsReady s
        → MayDo setup (told_by s) (told_behind setup s (Breaks breach)) s (Breaks breach) }
    ensures event { (setup : Setup) (s : State) (event : Event) → IsReady s → upstream_of event ≡ 0
        → may_come (gates_in (told_by s) s.requests) (rooms_in (told_by s) s) event ≡ true
        → MayDo setup (told_by s) (told_behind setup s (Notes event)) s (Notes event) }
    ensures frame { (setup : Setup) (s : State) (noted : Noted) (next : Table) (addition : Addition) → IsReady s
        → MayTake setup (told_behind setup s (Takes noted next addition)) s noted next addition
        → MayDo setup (told_by s) (told_behind setup s (Takes noted next addition)) s (Takes noted next addition) }
    ensures hears { (setup : Setup) (s : State) (event : Event) (stream : ℕ) (news : Delivery) (heard : Heard) → IsReady s
        → MayHear (told_behind setup s (Hears event stream news heard)) s event stream
        → MayDo setup (told_by s) (told_behind setup s (Hears event stream news heard)) s (Hears event stream news heard) }
    ensures fails { (setup : Setup) (s : State) (event : Event) (stream : ℕ) (heard : Heard) → IsReady s
        → MayFail (told_behind setup s (Fails event stream heard)) s event stream
        → MayDo setup (told_by s) (told_behind setup s (Fails event stream heard)) s (Fails event stream heard) }
    ensures idles { (setup : Setup) (s : State) (event : Event) → IsReady s → MayIdle s event
        → MayDo setup (told_by s) (told_behind setup s (Idles event)) s (Idles event) }
{}

/// What goes out has its move where it is due: a frame that is owed next; octets given back, all
/// that is owed on their id; an act. The next part of a response is a move by what `MayDo` itself
/// asks of it.
pub fn outputs_have_moves()
    ensures owed { (setup : Setup) (s : State) (noted : Noted) (next : Table) → IsOwedNext s noted
        → MayDo setup (told_by s) (told_behind setup s (Sends noted next)) s (Sends noted next) }
    ensures given { (setup : Setup) (s : State) (noted : Noted) (next : Table) → GivesBack s noted
        → MayDo setup (told_by s) (told_behind setup s (Sends noted next)) s (Sends noted next) }
    ensures act { (setup : Setup) (s : State) (act : Act) → s.ledger.book.closed ≡ false → Acts setup s act
        → MayDo setup (told_by s) (told_behind setup s (Decision.Acts act)) s (Decision.Acts act) }
{}

/// An upstream connection that is open where the gateway rests wasn't ended by its upstream: so
/// what is told of further octets of it is news of a connection that goes on, as the reader's
/// contract has it.
pub fn open_connections_go_on()
    ensures { (known : Known) (run : List Move) → AreKnown known (conducts run) → AllAllowed known.setup run → AreAnswered known run
        → RestsBehind known.setup run → (k : ℕ) → is_open k (tape_of run) ≡ true → ended_by (exchange_on k (tape_of run)) (tape_of run) ≡ false }
{}

/// What is heard of a connection (`Hears`) where its response is whole: it may be kept behind
/// octets that leave it open, where nothing is held of its stream's request (`keepable`), and else
/// not: where something is, it wasn't sent whole (`in_part`); the octets don't leave it open
/// (`not_left`), as none do where connections aren't kept; or its upstream ends it (`ended`). What
/// leaves it open is told by its reader.
pub fn answers_are_told()
    ensures keepable { (known : Known) (run : List Move) → AreKnown known (conducts run) → AllAllowed known.setup run → AreAnswered known run
        → RestsBehind known.setup run → (k : ℕ) (line : Line) → line_of k (state_of known.setup run).requests.live ≡ Some line → line.answer ≡ Pending
        → held_of line.stream (state_of known.setup run).requests.held ≡ None → (piece : List ℕ) → LeavesIdle known (tape_of run) k piece
        → IsHeardBy known (tape_of run) (Up k piece) Keepable }
    ensures in_part { (known : Known) (run : List Move) → AreKnown known (conducts run) → AllAllowed known.setup run → AreAnswered known run
        → RestsBehind known.setup run → (k : ℕ) (line : Line) → line_of k (state_of known.setup run).requests.live ≡ Some line → (held : Held)
        → held_of line.stream (state_of known.setup run).requests.held ≡ Some held → (event : Event) → upstream_of event ≡ k
        → IsAllHeard known (Happened event ∷ tape_of run) (exchange_on k (tape_of run)) → IsHeardBy known (tape_of run) event Finished }
    ensures not_left { (known : Known) (t : List Entry) (k : ℕ) (piece : List ℕ) → IsAllHeard known (Happened (Up k piece) ∷ t) (exchange_on k t)
        → (LeavesIdle known t k piece → ⊥) → IsHeardBy known t (Up k piece) Finished }
    ensures ended { (known : Known) (t : List Entry) (k : ℕ) → IsAllHeard known (Happened (UpEnd k) ∷ t) (exchange_on k t)
        → IsHeardBy known t (UpEnd k) Finished }
{}

/// A connection that is kept as idle is idle. So what moves say of its events (`Idles`) is so: of
/// its end and its failure with no more, and of octets where they have no fault that has to be
/// noticed at once.
pub fn idle_connections_are_told()
    ensures idle { (known : Known) (run : List Move) → AreKnown known (conducts run) → AllAllowed known.setup run → AreAnswered known run
        → (k : ℕ) (line : Line) → line_of k (state_of known.setup run).requests.live ≡ Some line → line.answer ≡ Idle → IsIdle known (tape_of run) k }
    ensures octets { (known : Known) (t : List Entry) (k : ℕ) (piece : List ℕ) → IsIdle known t k
        → (IsPlainlyBad (heard_by (exchange_on k t) t ++ piece) (is_asked_for_head known (exchange_on k t) t) → ⊥) → IsAnswered known t (Idles (Up k piece)) }
    ensures ended { (known : Known) (t : List Entry) (k : ℕ) → IsIdle known t k → IsAnswered known t (Idles (UpEnd k)) }
    ensures failed { (known : Known) (t : List Entry) (k : ℕ) → IsIdle known t k → IsAnswered known t (Idles (UpFailed k)) }
{}

/// The end of the connection comes by the rule, and leads to rest. Where the gateway rests and its
/// connection goes on, and then the client's side ends, or its octets can't be read as frames, or a
/// frame of it is an error of the connection, these moves come behind that entry (`ending_of`): the
/// GOAWAY, which is owed for an error alone; a close for each upstream connection that is open, in
/// the order in which they are kept; and that for the client. Each may come where it comes
/// (`Ends::allowed`), the gateway rests behind them (`Ends::rests`), so that the clauses hold there
/// ([`headline_holds`]), and the tape is the one that is told (`Ends::tape`). From the entry on the
/// book isn't kept any more, so [`states_lead`] says nothing of these moves.
///
/// These moves say nothing of upstreams' answers: what all moves say of them is so where it was
/// before, and the entry's own word is (`answered`).
///
/// The premises, and where each comes from:
/// - `Stands`: the state stands behind the moves before, which [`states_lead`] gives;
/// - `IsReady`: the gateway rests by what is kept, and its connection is open and not to end, which
///   whoever performs moves knows;
/// - `IsFatal`: of a frame, by the error table over the book that it is such an error; by the
///   decoder that its note is right, and that the block was read (no memory was refused) unless the
///   error is one before that;
/// - `IsCrowded`: too many octets for the client are untaken where a frame beside responses would
///   go out, within a step: then a GOAWAY that asks the client to be calm goes in its place, and
///   the connection ends behind it (`calming`).
pub fn ends_lead()
    ensures client { (setup : Setup) (run : List Move) (s : State) → Stands setup run s → IsReady s → Ends setup run s (Notes ClientEnd) }
    ensures breach { (setup : Setup) (run : List Move) (s : State) (breach : Breach) → Stands setup run s → IsReady s → Ends setup run s (Breaks breach) }
    ensures frame { (setup : Setup) (run : List Move) (s : State) (noted : Noted) (next : Table) → Stands setup run s → IsReady s → IsFatal s noted next
        → Ends setup run s (Takes noted next Nothing) }
    ensures calming { (setup : Setup) (run : List Move) (s : State) → Stands setup run s → IsCrowded s → Ends setup run s (calming_of s) }
    ensures answered { (known : Known) (run : List Move) (s : State) (d : Decision) → AreAnswered known run → IsAnswered known (tape_of run) d
        → AreAnswered known (ending_of s d ++ Does d ∷ run) }
{}

/// What the gateway keeps of octets, as sums over all octet lists of its state (`Held`), is
/// bounded:
/// - `connection`: where it rests and the client isn't closed, at most 200,000 octets are kept
///   beside what is kept for streams;
/// - `stream`: at any time at most `max_body + max_response + 400000` for each stream, what is on
///   offer for it and what is held of its request together;
/// - `streams`: where it rests and the client isn't closed, at most 100 streams have something on
///   offer, and at most 100 requests aren't whole;
/// - `all`: so all that is kept there is at most 200,000 and 100 times as much as for a stream;
/// - `closed`: behind the client's close nothing is held of any request.
///
/// The premises, and where each comes from: those of [`headline_holds`]; that `max_body` fits 64
/// bits, by the configuration; and where bodies are passed on as they come, that what upstreams
/// send fits their rooms (`FitRooms`), which is asked of each event before it is taken.
pub fn little_is_held()
    ensures connection { (known : Known) (run : List Move) → AreKnown known (conducts run) → AllAllowed known.setup run → AreAnswered known run
        → RestsBehind known.setup run → (state_of known.setup run).ledger.book.closed ≡ false
        → held_on_connection (state_of known.setup run) ≤ most_on_connection }
    ensures stream { (known : Known) (run : List Move) → AreKnown known (conducts run) → AllAllowed known.setup run → AreAnswered known run
        → (known.setup.passing ≡ Streaming → FitRooms known (tape_of run)) → known.setup.max_body < 2 ^ 64 → (stream : ℕ)
        → held_for stream (state_of known.setup run) ≤ most_for_stream known.setup }
    ensures streams { (known : Known) (run : List Move) → AreKnown known (conducts run) → AllAllowed known.setup run → AreAnswered known run
        → RestsBehind known.setup run → (state_of known.setup run).ledger.book.closed ≡ false
        → (length (state_of known.setup run).offers.kept ≤ most_active) × (length (state_of known.setup run).requests.held ≤ most_active) }
    ensures all { (known : Known) (run : List Move) → AreKnown known (conducts run) → AllAllowed known.setup run → AreAnswered known run
        → RestsBehind known.setup run → (state_of known.setup run).ledger.book.closed ≡ false
        → (known.setup.passing ≡ Streaming → FitRooms known (tape_of run)) → known.setup.max_body < 2 ^ 64
        → held_in_all (state_of known.setup run) ≤ most_in_all known.setup }
    ensures closed { (known : Known) (run : List Move) → AreKnown known (conducts run) → AllAllowed known.setup run → AreAnswered known run
        → is_closed (tape_of run) ≡ true → held_octets (state_of known.setup run).requests ≡ 0 }
{}
