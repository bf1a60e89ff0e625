//! What the changes of what is kept are in the rule of windows, each as the contract of a function
//! with an empty body.
//!
//! `StandFor` says that what is kept is what the rule's state has of active streams, where
//! connections were last given to the streams that its first argument tells: a connection that is
//! kept is given to one stream after another, and octets of the earlier ones' DATA may wait still.
//! Clauses named `beside` are of streams of which nothing is kept: where bodies are passed on
//! whole, of all.

ghost use Rattle.std.specs.Prelude.{◌≡◌, ◌≢◌, ◌+◌, ◌<◌, ◌≤◌, ℕ, Bool, true, false, List, [], ◌∷◌, ◌++◌, length, Some, None, IfSome};
ghost use Rattle.model.specs.Setup.{Passing};
ghost use Rattle.model.specs.Setup.Passing.{Streaming};
ghost use Rattle.model.specs.Logs.Act.{Open, ToUp};
ghost use Rattle.model.specs.Tapes.{Noted};
ghost use Rattle.theory_receive_windows.specs.Marks.{total, released};
ghost use Rattle.theory_receive_windows.specs.State.{State, Move, is_live, held, state_of, with_frame, with_sent};
ghost use Rattle.theory_receive_windows.specs.State.{with_taken, with_given, with_use, with_act, settle_by, must_wait};
ghost use Rattle.theory_receive_windows.specs.Policy.{AreAllowed};
ghost use Rattle.window_credit.specs.Sides.{Side, find, change, unless_over, is_above_all, opened, passing, putting};
ghost use Rattle.window_credit.specs.Sides.{waiting, queue_of, has_untaken, is_past, MayTake, released_behind};
ghost use Rattle.window_credit.specs.Sides.{taken_of_all};
ghost use Rattle.window_credit.specs.Standing.{StandFor, newest_with, IsOf, IsOfNone, NoneReached, dropped_of};
ghost use Rattle.window_credit.specs.HeldInside.{in_side, in_marks};
ghost use Rattle.window_credit.specs.HeldInQueue.{in_waiting};
ghost use Rattle.window_credit.specs.declared.queue.CreditQueue.TheInside.{Inside as WaitingInside};
ghost use Rattle.window_credit.specs.declared.marks.Marks.TheInside.{Inside as MarksInside};
ghost use Rattle.window_credit.specs.declared.stream_credit.StreamCredit.TheInside.{Inside as SideInside};

/// Where a stream is over with a frame, what waited for it goes back on the connection, and nothing
/// is kept of it; of one that is opened nothing is kept yet. Giving octets back leaves what is
/// kept.
pub fn frames_drop()
    ensures came { (newest : ℕ → ℕ) (sides : List Side) (s : State) (noted : Noted) (opens over : Bool) → StandFor newest sides s
        → (opens ≡ true → (over ≡ false) × (is_live s noted.frame.id ≡ false))
        → StandFor newest (unless_over over noted.frame.id sides) (with_frame s noted opens over) }
    ensures came_back { (newest : ℕ → ℕ) (sides : List Side) (s : State) (noted : Noted) (opens over : Bool) → StandFor newest sides s
        → (over ≡ true → is_live s noted.frame.id ≡ true) → (with_frame s noted opens over).debt ≡ s.debt + dropped_of over noted.frame.id sides }
    ensures sent { (newest : ℕ → ℕ) (sides : List Side) (s : State) (noted : Noted) (over : Bool) → StandFor newest sides s
        → StandFor newest (unless_over over noted.frame.id sides) (with_sent s noted over) }
    ensures sent_back { (newest : ℕ → ℕ) (sides : List Side) (s : State) (noted : Noted) (over : Bool) → StandFor newest sides s
        → (over ≡ true → is_live s noted.frame.id ≡ true) → (with_sent s noted over).debt ≡ s.debt + dropped_of over noted.frame.id sides }
    ensures given { (newest : ℕ → ℕ) (sides : List Side) (s : State) (shared : Bool) (noted : Noted) → StandFor newest sides s
        → StandFor newest sides (with_given shared s noted) }
{}

/// Octets of the last frame wait where not all that was put out for its stream's connection is
/// taken. Then they are kept behind what waits already, and else nothing changes of what is kept.
/// They come on no stream whose connection was given to another since, for its request is whole;
/// which stream has its connection still is told by those that connections were given to last
/// (`newest`).
pub fn effects_end()
    ensures must_wait { (newest : ℕ → ℕ) (sides : List Side) (s : State) (side : Side) → StandFor newest sides s → find s.stream sides ≡ Some side
        → side.past ≡ false → must_wait Streaming s ≡ has_untaken s.stream sides }
    ensures waits { (newest : ℕ → ℕ) (sides : List Side) (s : State) (side : Side) → StandFor newest sides s → find s.stream sides ≡ Some side
        → side.past ≡ false → StandFor newest (change s.stream (waiting s.count) sides) (settle_by true s) }
    ensures goes_back { (newest : ℕ → ℕ) (sides : List Side) (s : State) → StandFor newest sides s → StandFor newest sides (settle_by false s) }
    ensures held { (newest : ℕ → ℕ) (sides : List Side) (s : State) (id : ℕ) → StandFor newest sides s → is_live s id ≡ true
        → held s id ≡ total (queue_of id sides) }
    ensures untaken { (sides : List Side) (id : ℕ) → has_untaken id sides ≡ true → is_past id sides ≡ false }
    ensures newest { (newest : ℕ → ℕ) (sides : List Side) (s : State) (id : ℕ) (side : Side) → StandFor newest sides s → find id sides ≡ Some side
        → newest side.k ≡ id → side.past ≡ false }
{}

/// A connection that is given to the last frame's stream is kept, and so is what is put out for
/// one: no octet yet of one that is opened, and of one that is kept from another stream what was
/// put out and taken before.
pub fn acts_are_kept()
    ensures opens { (newest : ℕ → ℕ) (sides : List Side) (s : State) (k route : ℕ) → StandFor newest sides s → is_live s s.stream ≡ true
        → find s.stream sides ≡ None → find (newest k) sides ≡ None → s.out k ≡ 0 → s.took k ≡ 0
        → StandFor (newest_with k s.stream newest) (sides ++ opened s.stream k 0 0 ∷ []) (with_act s (Open k route)) }
    ensures opens_beside { (newest : ℕ → ℕ) (sides : List Side) (s : State) (k route : ℕ) → StandFor newest sides s → find s.stream sides ≡ None
        → find (newest k) sides ≡ None → StandFor (newest_with k s.stream newest) sides (with_act s (Open k route)) }
    ensures uses { (newest : ℕ → ℕ) (sides : List Side) (s : State) (k : ℕ) (octets : List ℕ) → StandFor newest sides s → is_live s s.stream ≡ true
        → find s.stream sides ≡ None → IsOf (newest k) k sides
        → StandFor (newest_with k s.stream newest) (change (newest k) passing sides ++ opened s.stream k (s.out k + length octets) (s.took k) ∷ [])
        (with_use s k octets) }
    ensures uses_beside { (newest : ℕ → ℕ) (sides : List Side) (s : State) (k : ℕ) (octets : List ℕ) → StandFor newest sides s → find s.stream sides ≡ None
        → find (newest k) sides ≡ None → StandFor (newest_with k s.stream newest) sides (with_use s k octets) }
    ensures puts { (newest : ℕ → ℕ) (sides : List Side) (s : State) (k id : ℕ) (octets : List ℕ) (side : Side) → StandFor newest sides s
        → find id sides ≡ Some side → side.k ≡ k → newest k ≡ id → StandFor newest (change id (putting (length octets)) sides) (with_act s (ToUp k octets)) }
    ensures puts_beside { (newest : ℕ → ℕ) (sides : List Side) (s : State) (k : ℕ) (octets : List ℕ) → StandFor newest sides s → IsOfNone (newest k) k sides
        → StandFor newest sides (with_act s (ToUp k octets)) }
{}

/// As the side of a connection takes octets, those of its newest stream, and of streams that had it
/// before, go back that the call answers: all on the connection, the newest stream's on that too,
/// and none on the streams of other connections.
pub fn sides_take()
    ensures may { (newest : ℕ → ℕ) (sides : List Side) (s : State) (k count id : ℕ) → StandFor newest sides s → NoneReached s → newest k ≡ id
        → IsOf id k sides → s.took k + count ≤ s.out k → IfSome (find id sides) (MayTake (s.took k + count)) }
    ensures kept { (newest : ℕ → ℕ) (sides : List Side) (s : State) (k count id : ℕ) → StandFor newest sides s → NoneReached s → newest k ≡ id
        → IsOf id k sides → StandFor newest (taken_of_all id k (s.took k + count) sides) (with_taken s k count) }
    ensures back { (newest : ℕ → ℕ) (sides : List Side) (s : State) (k count id : ℕ) → StandFor newest sides s → NoneReached s → newest k ≡ id
        → IsOf id k sides → (with_taken s k count).debt ≡ s.debt + released (s.took k + count) (queue_of id sides)
        + released_behind k (s.took k + count) sides }
    ensures own { (newest : ℕ → ℕ) (sides : List Side) (s : State) (k count id : ℕ) (side : Side) → StandFor newest sides s → NoneReached s → newest k ≡ id
        → IsOf id k sides → find id sides ≡ Some side → ((with_taken s k count).row id).debt ≡ (s.row id).debt
        + released (s.took k + count) (queue_of id sides) }
    ensures others { (s : State) (k count id : ℕ) → NoneReached s → is_live s id ≡ true → (s.row id).k ≢ k
        → ((with_taken s k count).row id).debt ≡ (s.row id).debt }
    ensures beside { (newest : ℕ → ℕ) (sides : List Side) (s : State) (k count : ℕ) → StandFor newest sides s → NoneReached s
        → ((id : ℕ) (side : Side) → find id sides ≡ Some side → side.k ≢ k) → StandFor newest sides (with_taken s k count) }
    ensures beside_back { (newest : ℕ → ℕ) (sides : List Side) (s : State) (k count : ℕ) → StandFor newest sides s → NoneReached s
        → ((id : ℕ) (side : Side) → find id sides ≡ Some side → side.k ≢ k) → (with_taken s k count).debt ≡ s.debt }
{}

/// Behind moves that are allowed nothing waits behind a mark that is reached.
pub fn marks_are_ahead()
    ensures { (more : ℕ) (passing : Passing) (moves : List Move) → AreAllowed more passing moves → NoneReached (state_of more passing moves) }
{}

/// An id is above all that are kept where it is above each that is found.
pub fn ids_are_above()
    ensures { (sides : List Side) (id : ℕ) → ((other : ℕ) (side : Side) → find other sides ≡ Some side → other < id) → is_above_all id sides ≡ true }
{}

/// What lies between calls in what waits of a stream's DATA, and in that of all, are numbers, and
/// no octet: each field is counted (`specs/HeldInside`).
pub fn what_is_held_is_seen()
    ensures side { (side : SideInside) → in_side side ≡ 0 }
    ensures marks { (marks : MarksInside) → in_marks marks ≡ 0 }
{}

/// What lies in a queue of marks between calls are numbers, and no octet: each field is counted
/// (`specs/HeldInQueue`), also of each mark.
pub fn what_a_queue_holds_is_seen()
    ensures { (waiting : WaitingInside) → in_waiting waiting ≡ 0 }
{}
