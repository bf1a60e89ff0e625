//! What of the client's DATA is kept and what goes back, and which event may come.
//!
//! The main theorem is `states_give_back`, beside `windows_go_back` on what goes back at each
//! place. Its premises, and where each comes from:
//! - `AllMayCome`: each move may come by the states, which whoever performs a move shows there.
//!   That an event may come by the state is `admission_is_told`, from the event's being admitted;
//!   octets that wait are the queue's (`window_credit`);
//! - `AreRight`: what is read of `theory_errors`'s summary is right (`sights_are_right` of
//!   `theory_responses`); how many octets the client hasn't taken, whether it is closed, which
//!   streams are active and which is the last frame's are of it too, and which connections are open
//!   is `connections_are_told` of `theory_requests`, clause `up`; that no DATA came on a stream
//!   that a kept connection is given to is its clause `used`;
//! - `OwesNothing`: nothing is owed, where a step ends. Something comes in only there (`MayCome`).
//!
//! What is held of a response (`AreHeld`) is what its stream's outbox has (`held_is_told`). What a
//! gateway keeps for this is `Kept`; which streams are active, and which is that of the last frame,
//! is read of the book of `theory_errors` at each point (`Gates`): `state_behind` is the state of
//! both.
#![tactic(auto)]

ghost use Rattle.std.specs.Prelude.{◌≡◌, ◌≢◌, ◌+◌, ℕ, true, List, length, sum_by, pos, ◌-ℤ◌};
ghost use Rattle.model.specs.Setup.{Passing, own_window};
ghost use Rattle.model.specs.Logs.{Event};
ghost use Rattle.model.specs.Tapes.{Entry, sent};
ghost use Rattle.model.specs.Openings.{Opened};
ghost use Rattle.model.specs.Setup.Passing.{Streaming};
ghost use Rattle.model.specs.Limits.{first_window};
ghost use Rattle.model.specs.WindowsOnTape.{room_on, room_on_connection};
ghost use Rattle.model.specs.Known.{Known};
ghost use Rattle.model.specs.Headline.{HoldsInTurn};
ghost use Rattle.model.specs.Admission.{is_admitted, room};
ghost use Rattle.model.specs.Rooms.{IsAdmitted};
ghost use Rattle.model.specs.Lifetimes.{is_active};
ghost use Rattle.model.specs.WindowClause.{GivesBack, GoesBack, GivesNoMore, HoldsBack, waiting};
ghost use Rattle.theory_receive_windows.specs.State.{Move, tape_of, state_of, held, fresh_of, with_taken, add};
ghost use Rattle.theory_receive_windows.specs.Policy.{AreAllowed, IsPaid, KeepRooms, Gates, AreGates, admits, room_in};
ghost use Rattle.theory_receive_windows.specs.Rule.{Seen, moves_of, sight_of, state_behind, AllMayCome, AreRight, OwesNothing, OwesSome};
ghost use Rattle.theory_receive_windows.specs.Rooms.{IsHeld, AreHeld, admits_beside};
ghost use Rattle.theory_responses.specs.Outbox.{Outbox};
ghost use Rattle.theory_receive_windows.specs.Held.{HasOutbox, AreUnpadded, body_in};
ghost use Rattle.theory_receive_windows.specs.Marks.{released, waiting_of};
ghost use Rattle.theory_receive_windows.specs.Marking.{marks_on};

/// Behind moves that are allowed, where all that is owed is paid, each receiving window is as at
/// first but for what is kept; no frame that gives octets back makes a window larger than at first;
/// and what is kept for a stream isn't given back on it, though it be over.
pub fn windows_go_back()
    ensures at_rest { (known : Known) (moves : List Move) → AreAllowed known.setup.more_room known.setup.passing moves
        → IsPaid (tape_of moves) (state_of known.setup.more_room known.setup.passing moves) → GivesBack known (tape_of moves) }
    ensures no_more { (more : ℕ) (passing : Passing) (moves : List Move) → AreAllowed more passing moves → GivesNoMore (first_window + more) (tape_of moves) }
    ensures holds_back { (more : ℕ) (passing : Passing) (moves : List Move) → AreAllowed more passing moves → HoldsBack (first_window + more) passing (tape_of moves) }
{}

/// Moves that are allowed by the states alone, where what is read of other concerns is right, are
/// allowed by their tape; and where nothing is owed each receiving window is as at first, but for
/// what is kept; where something is owed, octets go back (`some`). Something comes in only where
/// nothing is: so it holds before each thing that comes in.
pub fn states_give_back()
    ensures allowed { (known : Known) (more : ℕ) (passing : Passing) (run : List Seen) → AllMayCome more passing run → AreRight known passing run
        → AreAllowed more passing (moves_of run) }
    ensures at_rest { (known : Known) (run : List Seen) → AllMayCome known.setup.more_room known.setup.passing run → AreRight known known.setup.passing run
        → OwesNothing (sight_of run) (state_behind known.setup.more_room known.setup.passing run) → GivesBack known (tape_of (moves_of run)) }
    ensures some { (known : Known) (run : List Seen) → AllMayCome known.setup.more_room known.setup.passing run → AreRight known known.setup.passing run
        → OwesSome (sight_of run) (state_behind known.setup.more_room known.setup.passing run) → GoesBack (own_window known.setup) known.setup.passing (tape_of (moves_of run)) }
    ensures in_turn { (known : Known) (run : List Seen) → AllMayCome known.setup.more_room known.setup.passing run → AreRight known known.setup.passing run
        → HoldsInTurn (KeepRooms known) (tape_of (moves_of run)) }
{}

/// The octets of a stream that wait on a tape are those behind marks that aren't reached.
pub fn marks_wait()
    ensures { (o : Opened) (taken : ℕ) (t : List Entry) (put_out : ℕ) → waiting o taken t put_out ≡ waiting_of taken (marks_on o t put_out) }
{}

/// The rooms that the client has: as at first, without what waits, what came last, and what is owed.
pub fn rooms_are_told()
    ensures shared { (more : ℕ) (passing : Passing) (moves : List Move) → AreAllowed more passing moves
        → room_on_connection (tape_of moves) ≡ pos (first_window + more) -ℤ pos (sum_by (held (state_of more passing moves)) (state_of more passing moves).live
        + (state_of more passing moves).count + (state_of more passing moves).debt) }
    ensures own { (more : ℕ) (passing : Passing) (moves : List Move) (id : ℕ) → AreAllowed more passing moves → is_active id (tape_of moves) ≡ true
        → room_on (first_window + more) id (tape_of moves) ≡ pos (first_window + more) -ℤ pos (held (state_of more passing moves) id + fresh_of (state_of more passing moves) id
        + ((state_of more passing moves).row id).debt) }
{}

/// As an upstream's side takes octets, those of its own stream go back, where no other active
/// stream has its connection.
pub fn one_stream_returns()
    ensures { (more : ℕ) (passing : Passing) (moves : List Move) (k count id : ℕ) → AreAllowed more passing moves → is_active id (tape_of moves) ≡ true
        → ((other : ℕ) → other ≢ id → is_active other (tape_of moves) ≡ true → ((state_of more passing moves).row other).k ≢ k)
        → (with_taken (state_of more passing moves) k count).debt ≡ (state_of more passing moves).debt
        + released (add k count (state_of more passing moves).took ((state_of more passing moves).row id).k) ((state_of more passing moves).row id).queue }
{}

/// Which event may come by the state is which may by the tape, and so is the room of an upstream;
/// where responses are passed on as they come, with what is held of them.
pub fn admission_is_told()
    ensures admits { (more : ℕ) (passing : Passing) (moves : List Move) (gates : Gates) (event : Event) → AreAllowed more passing moves → AreGates (tape_of moves) gates
        → admits gates (state_of more passing moves) event ≡ is_admitted (tape_of moves) event }
    ensures room { (more : ℕ) (passing : Passing) (moves : List Move) (gates : Gates) (k : ℕ) → AreAllowed more passing moves → AreGates (tape_of moves) gates
        → room_in gates k ≡ room k (tape_of moves) }
    ensures beside { (known : Known) (more : ℕ) (passing : Passing) (moves : List Move) (gates : Gates) (held : ℕ → ℕ) (event : Event) → AreAllowed more passing moves
        → AreGates (tape_of moves) gates → AreHeld known (tape_of moves) held event → admits_beside gates (state_of more passing moves) held event ≡ true
        → IsAdmitted known (tape_of moves) event }
    ensures only { (known : Known) (more : ℕ) (passing : Passing) (moves : List Move) (gates : Gates) (held : ℕ → ℕ) (event : Event) → AreAllowed more passing moves
        → AreGates (tape_of moves) gates → AreHeld known (tape_of moves) held event → IsAdmitted known (tape_of moves) event
        → admits_beside gates (state_of more passing moves) held event ≡ true }
{}

/// Where responses are passed on as they come, what takes room is the body in the outbox of the
/// stream that the upstream was given to last.
pub fn held_is_told()
    ensures { (known : Known) (t : List Entry) (k : ℕ) (box : Outbox) → HasOutbox known t k box → AreUnpadded (sent t)
        → IsHeld Streaming known t k (length (body_in box)) }
{}
