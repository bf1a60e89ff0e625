//! Header tables of both directions: a rule over what is kept, from which it follows that they are
//! those of the other side.
//!
//! What is kept is a decoder's table, what an encoder keeps, and the client's limit of the table
//! (`State`). The header block of each side that isn't complete is the book's, of `theory_errors`.
//! A move is an entry of the tape, with what the book says of it, and with the table that is left
//! by the block that its frame completes. `MayCome` says which move may come, by the state alone.
//!
//! The main theorem is `in_step`. Its premises, and where each comes from:
//! - `AllFit`: each move is fit by the rule, which the contracts of `header_blocks` show
//!   (`connection_state` has the decoder's in its words);
//! - `AllJudged`: the verdict on each frame of the client is that of the error table, and blocks
//!   are begun as is said: the word of `theory_errors`, whose book tells it (`verdicts_are_right`;
//!   `book_tells`, clause `block_out`, for frames to the client);
//! - `Conducted`: each entry came in its turn, by the rule of `theory_errors`; so nothing comes
//!   behind an error (`nothing_comes_behind`);
//! - `AllMayCome`, `AreRight` and `AreTold`: what is sent is a part of what is on offer; they are
//!   `theory_responses`'s premises;
//! - `AllBegan`: each part begins where no reset is owed and its stream has the next turn, by
//!   `theory_responses`'s state and the windows of `theory_errors`'s book, which whoever performs a
//!   move shows there;
//! - `lost`: no memory was refused while a block was read; a gateway to which that happens is dead;
//! - that the moves of both have one tape, which whoever performs a move shows there.
#![tactic(auto)]

ghost use Rattle.std.specs.Prelude.{◌≡◌, ℕ, ◌+◌, Bool, false, List, ◌++◌, map, None};
ghost use Rattle.model.specs.Messages.{Field};
ghost use Rattle.model.specs.Tables.{Table};
ghost use Rattle.model.specs.Setup.{Policy};
ghost use Rattle.model.specs.Known.{Known};
ghost use Rattle.model.specs.Tapes.{Noted, Entry, sent};
ghost use Rattle.model.specs.Tapes.Note.{Fields};
ghost use Rattle.model.specs.Decoding.{Partial};
ghost use Rattle.model.specs.ResponseClause.{AreTogether, ResponsesHold};
ghost use Rattle.model.specs.Headline.{HoldsInTurn};
ghost use Rattle.model.specs.Synchrony.{AreFair, InStep};
ghost use Rattle.header_blocks.specs.Bounds.{IsBounded};
ghost use Rattle.theory_errors.specs.Summary.{summary_of};
ghost use Rattle.theory_errors.specs.Book.{Book, summary_in};
ghost use Rattle.theory_errors.specs.Told.{IsTold};
ghost use Rattle.theory_errors.specs.Turn.{Conducted};
ghost use Rattle.theory_responses.specs.State.{Move as Offer, entry_of as offered};
ghost use Rattle.theory_responses.specs.Policy.{AreAllowed};
ghost use Rattle.theory_responses.specs.Rule.{Seen, tape_of as offered_tape, AllMayCome, AreRight, AreTold};
ghost use Rattle.theory_header_tables.specs.State.{State, Move, tape_of, state_of};
ghost use Rattle.theory_header_tables.specs.Rule.{IsEncoded, AllCame, AllFit};
ghost use Rattle.theory_header_tables.specs.Spelling.{joined_up, block_moves, Leads, Follow, with_whole};
ghost use Rattle.theory_header_tables.specs.Kept.{IsJudged, AllJudged, KeepTables, IsOffered};
ghost use Rattle.theory_header_tables.specs.Verdicts.{verdict_in};
ghost use Rattle.theory_header_tables.specs.Turns.{AllBegan, EachBegan};

/// Moves by the rule keep the tables of both directions in step with the other side, for both policies.
pub fn tables_keep()
    ensures { (policy : Policy) (moves : List Move) → AllJudged moves → AllCame policy moves → KeepTables policy (tape_of moves) (state_of policy moves) }
{}

/// The verdict on a frame of the client follows from the summary of the tape before it, and from a book that tells it.
pub fn verdicts_are_right()
    ensures by_tape { (known : Known) (t : List Entry) (noted : Noted) → IsJudged t noted (verdict_in (summary_of known t) noted.frame) }
    ensures by_book { (known : Known) (t : List Entry) (book : Book) → IsTold book (summary_of known t) → (noted : Noted)
        → IsJudged t noted (verdict_in (summary_in book) noted.frame) }
{}

/// Where nothing comes behind an error of the connection, and memory wasn't refused, each block
/// before a frame of the client was read.
pub fn nothing_comes_behind()
    ensures { (known : Known) (policy : Policy) (moves : List Move) → Conducted known (tape_of moves) → AllJudged moves
        → (state_of policy moves).lost ≡ false → AllFit policy moves → AllCame policy moves }
{}

/// The tables of both directions stay bounded: neither maximum is past 4,096, and the sizes of its
/// fields sum to no more (RFC 7541, section 4).
pub fn tables_are_bounded()
    ensures { (policy : Policy) (moves : List Move) → AllFit policy moves → IsBounded (state_of policy moves).decoding
        × IsBounded (state_of policy moves).encoding.table }
{}

/// With what the others keep of responses the rule keeps the clause on them, and so it does before
/// each thing that comes in: tables are kept at every place, not only at rest.
pub fn responses_hold()
    ensures holds { (known : Known) (policy : Policy) (moves : List Move) → AllJudged moves → AllCame policy moves → IsOffered known (tape_of moves)
        → ResponsesHold known (tape_of moves) }
    ensures in_turn { (known : Known) (policy : Policy) (moves : List Move) → AllJudged moves → AllCame policy moves
        → HoldsInTurn (IsOffered known) (tape_of moves) → HoldsInTurn (ResponsesHold known) (tape_of moves) }
{}

/// A block that the encoder wrote may go in frames, however it is cut: HEADERS with the first
/// fragment, and CONTINUATION with the others. They lead from any state to one with the encoder's
/// next table. Each goes where that block is begun which the one before leaves, and behind the last
/// none is, as `theory_errors`'s book has it.
pub fn blocks_go()
    ensures { (s : State) (id : ℕ) (ends : Bool) (fields : List Field) (next : Table) (octets : List ℕ)
        → ((block : Partial) → block.fragments ≡ octets → IsEncoded s.encoding block (Fields fields) next) → (fragment : List ℕ) (fragments : List (List ℕ))
        → octets ≡ fragment ++ joined_up fragments → Leads s (block_moves id ends fields next fragment fragments) (with_whole next s)
        × Follow None (block_moves id ends fields next fragment fragments) None }
{}

/// Turns are fair where each part begins in its turn.
pub fn turns_are_fair()
    ensures { (known : Known) (offers : List Offer) → AreAllowed known offers → AreTogether (sent (map offered offers)) → EachBegan offers
        → AreFair known (map offered offers) }
{}

/// So the connection is in step.
pub fn in_step()
    ensures { (known : Known) (moves : List Move) (run : List Seen) → tape_of moves ≡ offered_tape run → Conducted known (tape_of moves) → AllJudged moves
        → AllFit known.setup.policy moves → (state_of known.setup.policy moves).lost ≡ false → AllMayCome run → AreRight known run → AreTold known run
        → AllBegan run → InStep known (tape_of moves) (state_of known.setup.policy moves).encoding.table (state_of known.setup.policy moves).decoding }
{}
