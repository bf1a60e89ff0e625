//! What is on offer for each stream, what of it was sent, and what may go next.
//!
//! What is kept is an outbox for each active stream, and whose turn was last (`State`). All else is
//! read of `theory_errors`'s book (`Sight`): windows, what is untaken, which streams are active,
//! and why the gateway answers one itself. Neither high water nor flags are asked here: the book's
//! rule asks them of each frame.
//!
//! The main theorem is `states_keep`. Its premises, and where each comes from:
//! - `AllMayCome`: each move may come by the states before it and behind it, which whoever performs
//!   a move shows there. Of the rule, that an event is of the connection that was given to a stream
//!   last, which isn't answered, and for which stream a connection is opened or used again, is
//!   `connections_are_told` of `theory_requests`, clauses `heard`, `opened` and `used`; the part
//!   that goes next is `part_chosen`, and its item is what the encoder was given;
//! - `AreRight`: what is read of `theory_errors`'s summary is right (`sights_are_right`, from its
//!   rule), and so is what is read of its book, as long as the connection goes on;
//! - `AreTold`: what is told of an upstream's octets is news, by `reader_tells` of
//!   `upstream_response`, from the contracts of `h1_reader`; and of the events that change nothing,
//!   that their connection is idle, by `connections_are_told` again, and that no answer fails with
//!   them;
//! - `IsFlushed`: the flush is done, where a step ends. Something comes in only there (`MayCome`).
//!
//! How many octets outboxes hold at most, at rest or not, says `outboxes_are_bounded`.
#![tactic(auto)]

ghost use Rattle.std.specs.Prelude.{◌≡◌, ◌<◌, ◌≤◌, ◌+◌, ◌*◌, ℕ, Bool, true, false, List, length, map, reverse, sum_by, All, Some, is_some};
ghost use Rattle.model.specs.Turns.{IsNextTurn};
ghost use Rattle.model.specs.Readiness.{IsReady};
ghost use Rattle.model.specs.Known.{Known};
ghost use Rattle.model.specs.Setup.{Setup};
ghost use Rattle.model.specs.Setup.Passing.{Whole, Streaming};
ghost use Rattle.model.specs.Tapes.{Entry};
ghost use Rattle.model.specs.Limits.{longest_section};
ghost use Rattle.model.specs.Lifetimes.{active};
ghost use Rattle.model.specs.Failures.{AreJudged};
ghost use Rattle.model.specs.Headline.{HoldsInTurn};
ghost use Rattle.theory_errors.specs.Rule.{Move as Conduct, tape_of as conduct_tape, point_of, AreKnown};
ghost use Rattle.theory_errors.specs.Book.{summary_in, ledger_of, AllMoved};
ghost use Rattle.theory_errors.specs.Turn.{Conducted};
ghost use Rattle.theory_responses.specs.Outbox.{Outbox, Part, IsNext, left, weight, can_go, part_of, octets_of};
ghost use Rattle.theory_responses.specs.State.{Move, ready, entry_of, state_of};
ghost use Rattle.theory_responses.specs.Policy.{Neighbours, windows_on, AreAllowed, IsFlushed, KeepClauses};
ghost use Rattle.theory_responses.specs.Sight.{IsRightOf, windows_in, sight_in};
ghost use Rattle.theory_responses.specs.Held.{head_octets, heads_waiting, body_waiting, octets_in, octets_held};
ghost use Rattle.theory_responses.specs.Held.{most_heads, most_streamed, most_octets, FitRooms, AreUnpadded};
ghost use Rattle.theory_responses.specs.Held.{AreLimited, AreDistinct};
ghost use Rattle.theory_responses.specs.Rule.{Seen, moves_of, tape_of, sight_of, AllMayCome, AreRight, AreTold};

/// Each part that goes leaves less, so a flush ends.
pub fn parts_end()
    ensures { (box : Outbox) (part : Part) → IsNext box part → weight (left box part) < weight box }
{}

/// The part that is chosen, where so many octets may go, may go next and has no more octets; and
/// one is chosen where something can go.
pub fn part_chosen()
    ensures next { (most : ℕ) (box : Outbox) (part : Part) → 0 < most → part_of most box ≡ Some part → IsNext box part }
    ensures few { (most : ℕ) (box : Outbox) (part : Part) → part_of most box ≡ Some part → length (octets_of part) ≤ most }
    ensures there { (windows : Bool) (most : ℕ) (box : Outbox) → can_go windows box ≡ true → is_some (part_of most box) ≡ true }
{}

/// The stream that has the next turn by the state is ready by the clause.
pub fn turns_are_of_ready()
    ensures { (known : Known) (moves : List Move) (stream : ℕ) → AreAllowed known moves
        → IsNextTurn (state_of moves).last (ready (windows_on (map entry_of moves)) (state_of moves)) (Some stream)
        → IsReady known (map entry_of moves) stream }
{}

/// Moves that are allowed by their tape keep the clauses, once the flush is done.
pub fn outboxes_keep()
    ensures { (known : Known) (moves : List Move) → AreAllowed known moves → Neighbours known (map entry_of moves)
        → IsFlushed (windows_on (map entry_of moves)) (state_of moves) → KeepClauses known (map entry_of moves) }
{}

/// Moves that are allowed by the states alone, where what is read of other concerns is right and
/// what is told of upstreams is news, are allowed by their tape; and they keep the clauses, once
/// the flush is done. Something comes in only there: so the clauses hold before each thing that
/// comes in.
pub fn states_keep()
    ensures allowed { (known : Known) (run : List Seen) → AllMayCome run → AreRight known run → AreTold known run → AreAllowed known (moves_of run) }
    ensures keeps { (known : Known) (run : List Seen) → AllMayCome run → AreRight known run → AreTold known run
        → IsFlushed (windows_in (sight_of run)) (state_of (moves_of run)) → KeepClauses known (tape_of run) }
    ensures in_turn { (known : Known) (run : List Seen) → AllMayCome run → AreRight known run → AreTold known run
        → HoldsInTurn (KeepClauses known) (tape_of run) }
{}

/// What is read of the summary that `theory_errors` keeps is right of the tape of its moves,
/// wherever they are allowed; and so is what is read of its book, as long as the connection goes
/// on.
pub fn sights_are_right()
    ensures summary { (known : Known) (moves : List Conduct) → AreKnown known moves → AllMoved known.setup moves
        → IsRightOf known (conduct_tape moves) (sight_in (point_of known.setup moves).summary) }
    ensures book { (known : Known) (moves : List Conduct) → AreKnown known moves → AllMoved known.setup moves
        → (ledger_of known.setup moves).book.ends ≡ false → IsRightOf known (conduct_tape moves) (sight_in (summary_in (ledger_of known.setup moves).book)) }
{}

/// What outboxes hold of octets (`Held`) is bounded behind each move of a run that the rule by
/// states allows, at rest or not:
/// - `few`, `short`, `heads`: in one outbox at most nine heads wait, the eight interim ones that a
///   response may have and its final one. None has more octets in names and values than its text
///   may have, 16,384; so all have at most 147,456;
/// - `whole`: where responses are passed on whole, no more of a body waits than may be kept of one
///   (`max_response`);
/// - `streaming`: where they are passed on as they come, no more waits than an upstream's room is,
///   65,536 octets;
/// - `held`, `most`: so one outbox holds at most 147,456 octets and as many as a body may have,
///   together never more than `max_response` + 229,376;
/// - `streams`, `apart`: there is one outbox for each active stream, in the order in which these
///   were opened, and no stream has two;
/// - `together`: so all outboxes hold at most so much for each active stream.
///
/// Heads may wait over many events, since no head goes while too much is untaken by the client's
/// side. What bounds them is that a response has few interim heads, whenever they come: a ninth is
/// no head of a response (this project's profile).
///
/// The premises beside those of [`states_keep`], and where each comes from:
/// - `AreJudged`: failures are judged rightly, a body that is too long among them, by
///   `verdicts_hold` of `upstream_response`;
/// - `FitRooms`: each event fitted the room of its connection, which is asked of an event before it
///   may come (`IsAdmitted`);
/// - `AreUnpadded`: no frame to the client has padding ([`frames_go_unpadded`]), since what goes as
///   padding makes room like octets of a body;
/// - `AreLimited`: the first of these, or the other two, by the way in which bodies are passed on.
pub fn outboxes_are_bounded()
    ensures few { (known : Known) (run : List Seen) → AllMayCome run → AreRight known run → AreTold known run
        → All (λ k. length (heads_waiting k.box) ≤ most_heads) (state_of (moves_of run)).kept }
    ensures short { (known : Known) (run : List Seen) → AllMayCome run → AreRight known run → AreTold known run
        → All (λ k. All (λ head. head_octets head ≤ longest_section) (heads_waiting k.box)) (state_of (moves_of run)).kept }
    ensures heads { (known : Known) (run : List Seen) → AllMayCome run → AreRight known run → AreTold known run
        → All (λ k. sum_by head_octets (heads_waiting k.box) ≤ most_heads * longest_section) (state_of (moves_of run)).kept }
    ensures whole { (known : Known) (run : List Seen) → AllMayCome run → AreRight known run → AreTold known run → AreJudged known (tape_of run)
        → known.setup.passing ≡ Whole → All (λ k. length (body_waiting k.box) ≤ known.setup.max_response) (state_of (moves_of run)).kept }
    ensures streaming { (known : Known) (run : List Seen) → AllMayCome run → AreRight known run → AreTold known run → FitRooms known (tape_of run)
        → AreUnpadded (tape_of run) → known.setup.passing ≡ Streaming
        → All (λ k. length (body_waiting k.box) ≤ most_streamed) (state_of (moves_of run)).kept }
    ensures held { (known : Known) (run : List Seen) → AllMayCome run → AreRight known run → AreTold known run
        → AreLimited known.setup.passing known (tape_of run) → All (λ k. octets_in k.box ≤ most_octets known.setup) (state_of (moves_of run)).kept }
    ensures most { (setup : Setup) → most_octets setup ≤ setup.max_response + 229376 }
    ensures streams { (known : Known) (run : List Seen) → AllMayCome run → AreRight known run → AreTold known run
        → map (λ k. k.id) (state_of (moves_of run)).kept ≡ reverse (active (tape_of run)) }
    ensures apart { (known : Known) (run : List Seen) → AllMayCome run → AreRight known run → AreTold known run
        → AreDistinct (map (λ k. k.id) (state_of (moves_of run)).kept) }
    ensures together { (known : Known) (run : List Seen) → AllMayCome run → AreRight known run → AreTold known run
        → AreLimited known.setup.passing known (tape_of run)
        → octets_held (state_of (moves_of run)) ≤ length (active (tape_of run)) * most_octets known.setup }
{}

/// No frame to the client has padding where each came in its turn, which `errors_hold` of
/// `theory_errors` gives, clause `conducted` (RFC 9113, sections 6.1 and 6.2).
pub fn frames_go_unpadded()
    ensures { (known : Known) (t : List Entry) → Conducted known t → AreUnpadded t }
{}
