//! How a gateway conducts itself: a rule over what it keeps, from which the clause on errors
//! follows for all that may come.
//!
//! What is kept is a book (`Book`): numbers and flags of the connection, one header block of each
//! side, and a row for each stream that was opened; beside it a queue of the frames that are owed
//! next. A move is an entry of the tape, and whether an upstream's answer failed with it. `MayMove`
//! says which move may come, by the book and the queue alone.
//!
//! The main theorem is `errors_hold`. Its premises, and where each comes from:
//! - `AllMoved`: each move came by the rule, which whoever performs a move shows there, from what
//!   it keeps. Of the rule, the note of a frame's header block (`IsSound`) is by the rule of
//!   `theory_header_tables`: a block that is no error before is noted as the decoder answers,
//!   unless memory was refused; that an answer fails on an active stream alone is
//!   `connections_are_told` of `theory_requests`, clause `heard`;
//! - `AreKnown`: what is known of failures is what the moves say. The clause `known` gives it of
//!   what the moves say themselves; that the verdicts are right is `verdicts_hold` of
//!   `upstream_response`;
//! - `Rests`: nothing is owed, no header block to the client is begun, and the client is closed if
//!   the connection is to end; the end of each step shows it. Before each thing that comes in it
//!   follows from the rule (`errors_hold_in_turn`).
#![tactic(auto)]

ghost use Rattle.std.specs.Prelude.{◌≡◌, ℕ, ◌<◌, ◌≤◌, Bool, true, false, not, ◌&&◌, ◌==◌, List, [], ◌∷◌, ◌++◌, reverse, length, None, is_some};
ghost use Rattle.std.specs.List.{list_any};
ghost use Rattle.model.specs.Frames.{Frame, data_kind, goaway, enhance_your_calm};
ghost use Rattle.model.specs.Setup.{Setup};
ghost use Rattle.model.specs.Known.{Known, fails_behind};
ghost use Rattle.model.specs.Tapes.{Noted, Entry, sent};
ghost use Rattle.model.specs.Decoding.{begun};
ghost use Rattle.model.specs.Headline.{HoldsInTurn};
ghost use Rattle.model.specs.Tapes.Entry.{Came, Sent};
ghost use Rattle.model.specs.Errors.{first_of};
ghost use Rattle.model.specs.Limits.{longest_block, most_active};
ghost use Rattle.model.specs.Lifetimes.{is_active, active, may_open};
ghost use Rattle.model.specs.Courses.{fault};
ghost use Rattle.model.specs.ErrorClause.{ErrorsHold, acks, controls, owed, owed_by, calls_for_end, is_calming};
ghost use Rattle.model.specs.ErrorClause.{is_fatal, is_passing, is_rightly_sent, must_end};
ghost use Rattle.model.specs.WindowClause.{KeepsWindows};
ghost use Rattle.theory_errors.specs.Summary.{Outline, Summary, summary_of, stream_of};
ghost use Rattle.theory_errors.specs.Judging.{active_in, is_active_in, is_crowded_in, rows_before_block_in, fault_for};
ghost use Rattle.theory_errors.specs.Held.{octets_begun};
ghost use Rattle.theory_errors.specs.Owing.{highest_in, fault_in, owes_in, is_rightly_sent_in, must_end_in};
ghost use Rattle.theory_errors.specs.After.{after};
ghost use Rattle.theory_errors.specs.Rule.{Move, MayComeIn, tape_of, AreKnown, known_of};
ghost use Rattle.theory_errors.specs.Rows.{Row, find, kept_in, ids_of, row_behind};
ghost use Rattle.theory_errors.specs.Book.{Book, Ledger, Rests, as_point, summary_in, book_after, ledger_after, ledger_of, MayMove, AllMoved};
ghost use Rattle.theory_errors.specs.Told.{IsTold};
ghost use Rattle.theory_errors.specs.Turn.{Conducted};
ghost use Rattle.theory_errors.specs.Tidy.{IsRow, AreKept, IsElsewhere};
ghost use Rattle.theory_errors.specs.Quiet.{IsControl, IsQuiet, IsInOrder, noted_of, coming, sending, sends, heard, paid_of};
ghost use Rattle.theory_errors.specs.Windows.{FitsWindows};
ghost use Rattle.theory_errors.specs.InTurn.{KeepErrors};

/// The summary of a tape is kept entry by entry, and tells what each entry calls for, what may be
/// sent, and whether the connection is to end.
pub fn summary_tells()
    ensures kept { (known : Known) (t : List Entry) (e : Entry) → after known.setup (fails_behind known t) (summary_of known t) e ≡ summary_of known (e ∷ t) }
    ensures owes { (known : Known) (t : List Entry) (e : Entry) → owes_in known.setup (fails_behind known t) (summary_of known t) e ≡ owed_by known t e }
    ensures ends { (known : Known) (t : List Entry) → must_end_in (summary_of known t) ≡ must_end known t }
    ensures rightly { (known : Known) (t : List Entry) (frame : Frame) → is_rightly_sent_in (summary_of known t) frame ≡ is_rightly_sent t frame }
{}

/// Whoever keeps the book by the rule keeps the clause on errors wherever it rests; no header block
/// to the client is begun there. Each entry came in its turn.
pub fn errors_hold()
    ensures holds { (setup : Setup) (known : Known) (moves : List Move) → known.setup ≡ setup → AreKnown known moves → AllMoved setup moves
        → Rests (ledger_of setup moves) → ErrorsHold known (tape_of moves) }
    ensures known { (setup : Setup) (moves : List Move) → AreKnown (known_of setup moves) moves }
    ensures conducted { (known : Known) (moves : List Move) → AreKnown known moves → AllMoved known.setup moves → Conducted known (tape_of moves) }
    ensures owed { (known : Known) (moves : List Move) → AreKnown known moves → AllMoved known.setup moves → (next : Frame) (rest : List Frame)
        → (ledger_of known.setup moves).queue ≡ next ∷ rest → owed known (tape_of moves) ≡ reverse rest ++ next ∷ controls (sent (tape_of moves)) }
    ensures ends { (known : Known) (moves : List Move) → AreKnown known moves → AllMoved known.setup moves
        → (ledger_of known.setup moves).book.ends ≡ calls_for_end known (tape_of moves) }
    ensures whole { (known : Known) (moves : List Move) → AreKnown known moves → AllMoved known.setup moves → Rests (ledger_of known.setup moves)
        → begun (sent (tape_of moves)) ≡ None }
{}

/// Something comes in only where the program rests: so all of it holds before each thing that comes in.
pub fn errors_hold_in_turn()
    ensures at_rest { (ledger : Ledger) → MayComeIn (as_point ledger) → Rests ledger }
    ensures in_turn { (known : Known) (moves : List Move) → AreKnown known moves → AllMoved known.setup moves → HoldsInTurn (KeepErrors known) (tape_of moves) }
{}

/// As long as nothing that came calls for the end, the book tells what the tape tells: which
/// streams are active, all that is kept of those, and the fault of any entry. So the other concerns
/// may ask the book. The header block to the client that isn't complete it has whatever came.
pub fn book_tells()
    ensures block_out { (known : Known) (moves : List Move) → AreKnown known moves → AllMoved known.setup moves
        → (ledger_of known.setup moves).book.block_out ≡ begun (sent (tape_of moves)) }
    ensures told { (known : Known) (moves : List Move) → AreKnown known moves → AllMoved known.setup moves → (ledger_of known.setup moves).book.ends ≡ false
        → IsTold (ledger_of known.setup moves).book (summary_of known (tape_of moves)) }
    ensures active { (known : Known) (t : List Entry) (book : Book) → IsTold book (summary_of known t) → (id : ℕ)
        → is_active_in id (summary_in book) ≡ is_active id t }
    ensures live { (known : Known) (t : List Entry) (book : Book) → IsTold book (summary_of known t) → (id : ℕ) → is_active id t ≡ true
        → find book.rows id ≡ stream_of known t id }
    ensures fault { (known : Known) (t : List Entry) (book : Book) → IsTold book (summary_of known t) → (e : Entry)
        → fault_in (summary_in book) e ≡ fault known t e }
{}

/// Where a program rests and the client isn't closed, the connection goes on: nothing that came calls for its end.
pub fn rest_goes_on()
    ensures goes_on { (ledger : Ledger) → Rests ledger → ledger.book.closed ≡ false → must_end_in (summary_in ledger.book) ≡ false }
    ensures no_end { (ledger : Ledger) → Rests ledger → ledger.book.closed ≡ false → ledger.book.ends ≡ false }
{}

/// Where the program rests and the connection isn't to end, at most 100 streams are active (RFC
/// 9113, section 5.1.2): one more is refused, and over once the reset that is owed for it is sent.
pub fn few_are_active()
    ensures by_book { (setup : Setup) (moves : List Move) → AllMoved setup moves → Rests (ledger_of setup moves) → (ledger_of setup moves).book.ends ≡ false
        → length (active_in (summary_in (ledger_of setup moves).book)) ≤ most_active }
    ensures by_tape { (known : Known) (moves : List Move) → AreKnown known moves → AllMoved known.setup moves → Rests (ledger_of known.setup moves)
        → (ledger_of known.setup moves).book.ends ≡ false → length (active (tape_of moves)) ≤ most_active }
{}

/// While the connection isn't to end, the client's header block that isn't complete has at most
/// 65,536 octets; where the program rests, no block to the client is begun.
pub fn begun_blocks_are_short()
    ensures client { (setup : Setup) (moves : List Move) → AllMoved setup moves → (ledger_of setup moves).book.ends ≡ false
        → octets_begun (ledger_of setup moves).book.block ≤ longest_block }
    ensures own { (ledger : Ledger) → Rests ledger → octets_begun ledger.book.block_out ≡ 0 }
{}

/// Rows hold what they should behind any entries, in turn or not: an active stream or what is left
/// of one, with ids that rise, so that each stands once.
pub fn rows_are_kept()
    ensures behind { (setup : Setup) (fails : Bool) (book : Book) (e : Entry) → AreKept book.rows → AreKept (book_after setup fails book e).rows }
    ensures all { (setup : Setup) (moves : List Move) → AreKept (ledger_of setup moves).book.rows }
    ensures once { (row : Row) (rows : List Row) → AreKept (row ∷ rows) → list_any (λ other. other == row.id) (ids_of rows) ≡ false }
{}

/// An entry changes no row but that of its own stream, unless it is an error of the connection.
pub fn other_rows_stay()
    ensures { (setup : Setup) (fails : Bool) (s : Summary) (e : Entry) (row : Row) → IsRow row
        → IsElsewhere s row.id e (fault_for (kept_in row.slot).outline s e) → row_behind setup fails s e row ≡ row }
{}

/// An error of a frame before its header block is read is one of the connection.
pub fn errors_before_blocks()
    ensures { (s : Summary) (noted : Noted) → is_some (first_of (rows_before_block_in s noted.frame)) ≡ true → is_fatal (fault_in s (Came noted)) ≡ true }
{}

/// A frame of the client that changes no stream, no window and no setting, and comes in order, has
/// no fault; behind it a frame came, and nothing else is new; it calls for an answer where it is a
/// PING.
pub fn quiet_frames()
    ensures fault { (s : Summary) (frame : Frame) → IsQuiet frame → IsInOrder s frame → (outline : Outline) → fault_for outline s (coming frame) ≡ None }
    ensures book { (setup : Setup) (book : Book) (frame : Frame) → IsQuiet frame → IsInOrder (summary_in book) frame → AreKept book.rows
        → book_after setup false book (coming frame) ≡ heard book frame }
    ensures owes { (setup : Setup) (book : Book) (frame : Frame) → IsQuiet frame → IsInOrder (summary_in book) frame
        → owes_in setup false (summary_in book) (coming frame) ≡ acks (coming frame) None }
{}

/// What is owed may be sent; a control frame calls for nothing, and behind it the debt is paid, and
/// nothing else is new but what is untaken.
pub fn debts_are_paid()
    ensures may { (book : Book) (frame : Frame) → is_passing (noted_of frame) ≡ false → (queue : List Frame) → book.closed ≡ false
        → may_open (summary_in book).drained (summary_in book).opened frame.id ≡ false → (is_calming frame && not book.ends) ≡ false
        → (is_crowded_in (summary_in book) && not (is_calming frame)) ≡ false → MayMove (record { book = book; queue = frame ∷ queue }) (sends frame) }
    ensures nothing { (setup : Setup) (book : Book) (frame : Frame) → IsControl frame → owes_in setup false (summary_in book) (sending frame) ≡ [] }
    ensures paid { (setup : Setup) (book : Book) (frame : Frame) → IsControl frame → book.block_out ≡ None → AreKept book.rows → (queue : List Frame)
        → (is_calming frame && not book.ends) ≡ false → ledger_after setup (record { book = book; queue = frame ∷ queue }) (sends frame) ≡
        record { book = paid_of book frame; queue = queue } }
{}

/// Where too many octets for the client are untaken, a GOAWAY that asks the client to be calm may
/// go in place of what is owed, or of octets that are given back. Behind it nothing is owed, and
/// the connection is to end.
pub fn goaways_stand_in()
    ensures may { (book : Book) (queue : List Frame) → book.closed ≡ false → book.ends ≡ false → is_crowded_in (summary_in book) ≡ true
        → MayMove (record { book = book; queue = queue }) (sends (goaway (highest_in (ids_of book.rows)) enhance_your_calm)) }
    ensures stood { (setup : Setup) (book : Book) (frame : Frame) → IsControl frame → book.block_out ≡ None → AreKept book.rows → (queue : List Frame)
        → (is_calming frame && not book.ends) ≡ true → ledger_after setup (record { book = book; queue = queue }) (sends frame) ≡
        record { book = paid_of book frame; queue = [] } }
{}

/// DATA that goes out within the windows that are kept keeps the clause on windows.
pub fn windows_are_kept()
    ensures { (known : Known) (t : List Entry) (noted : Noted) → KeepsWindows t
        → (noted.frame.kind ≡ data_kind → 0 < length noted.frame.payload → FitsWindows (summary_of known t) noted.frame) → KeepsWindows (Sent noted ∷ t) }
{}
