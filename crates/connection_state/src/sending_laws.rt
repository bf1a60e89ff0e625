//! What the gateway's own doing leads to in the book of `theory_errors`.

ghost use Rattle.std.specs.Prelude.{◌≡◌, ℕ, ◌-◌, ◌<◌, ◌≤◌, length, Bool, true, false, not, ◌&&◌, ◌==◌, List, [], ◌∷◌, ◌++◌, Some, None};
ghost use Rattle.model.specs.Messages.{Field};
ghost use Rattle.model.specs.Messages.Item.{Block};
ghost use Rattle.model.specs.Frames.{Frame, data_kind, rst_stream_kind, window_update_kind, ends_headers, ends_stream, spell_number};
ghost use Rattle.model.specs.Setup.{Setup};
ghost use Rattle.model.specs.Logs.{Event, Act};
ghost use Rattle.model.specs.Logs.Event.{ClientTook, Drain};
ghost use Rattle.model.specs.Limits.{most_streams};
ghost use Rattle.model.specs.Logs.Act.{Open, ToUp, Close, CloseClient};
ghost use Rattle.model.specs.Tapes.{Noted};
ghost use Rattle.model.specs.Tapes.Note.{Fields};
ghost use Rattle.model.specs.Tapes.Entry.{Happened, Sent, Did};
ghost use Rattle.model.specs.Decoding.{Partial, joined};
ghost use Rattle.model.specs.Openings.{given};
ghost use Rattle.theory_errors.specs.After.{given_after};
ghost use Rattle.model.specs.WindowsOnTape.{increment};
ghost use Rattle.model.specs.ErrorClause.{is_calming};
ghost use Rattle.model.specs.Courses.{upstream_of, is_final};
ghost use Rattle.theory_errors.specs.Turn.{rest_of};
ghost use Rattle.theory_errors.specs.Judging.{completed_in};
ghost use Rattle.theory_errors.specs.Book.{Book, Ledger, ledger_after};
ghost use Rattle.theory_errors.specs.Tidy.{AreKept};
ghost use Rattle.theory_errors.specs.Quiet.{IsControl, sending, paid_of};
ghost use Rattle.connection_state.specs.Judgement.{update};
ghost use Rattle.connection_state.specs.Sending.{LeadsTo, behind_head, behind_data, behind_reset, behind_update};
ghost use Rattle.connection_state.specs.Sending.{behind_stream_update, early_reset, is_of_upstream, goaway_of_drain, behind_failure};
ghost use Rattle.connection_state.specs.Sending.{reset_if_out};

/// What a frame that is sent leads to: the book behind it, and what it calls for.
/// - `fragment`: a frame with which a header block begins or goes on, and isn't complete;
/// - `block`: the last frame of a header block, noted with its fields. It calls for a reset where
///   the block ends the response before its request ended (RFC 9113, section 8.1);
/// - `data`: DATA, and so does it;
/// - `reset`: RST_STREAM; `update` and `stream_update`: WINDOW_UPDATE; `control`: any other.
pub fn sent_frames_lead()
    ensures fragment { (setup : Setup) (book : Book) (noted : Noted) (begun : Partial) → AreKept book.rows → ends_headers noted.frame ≡ false
        → joined book.block_out noted.frame ≡ Some begun → LeadsTo setup false book (Sent noted)
        (record (paid_of book noted.frame) { block_out = Some begun }) [] }
    ensures block { (setup : Setup) (book : Book) (noted : Noted) (block : Partial) (fields : List Field) → AreKept book.rows
        → completed_in book.block_out noted.frame ≡ Some block → noted.note ≡ Fields fields
        → LeadsTo setup false book (Sent noted) (behind_head book noted.frame (is_final (Block fields block.ends)) block.ends)
        (early_reset book noted.frame.id block.ends) }
    ensures data { (setup : Setup) (book : Book) (noted : Noted) → AreKept book.rows → book.block_out ≡ None → noted.frame.kind ≡ data_kind
        → LeadsTo setup false book (Sent noted) (behind_data book noted.frame) (early_reset book noted.frame.id (ends_stream noted.frame)) }
    ensures reset { (setup : Setup) (book : Book) (noted : Noted) → AreKept book.rows → book.block_out ≡ None → noted.frame.kind ≡ rst_stream_kind
        → LeadsTo setup false book (Sent noted) (behind_reset book noted.frame) [] }
    ensures update { (setup : Setup) (book : Book) (noted : Noted) → AreKept book.rows → book.block_out ≡ None → noted.frame.kind ≡ window_update_kind
        → noted.frame.id ≡ 0 → LeadsTo setup false book (Sent noted) (behind_update book noted.frame) [] }
    ensures stream_update { (setup : Setup) (book : Book) (noted : Noted) → AreKept book.rows → book.block_out ≡ None
        → noted.frame.kind ≡ window_update_kind → (noted.frame.id == 0) ≡ false
        → LeadsTo setup false book (Sent noted) (behind_stream_update book noted.frame) [] }
    ensures control { (setup : Setup) (book : Book) (frame : Frame) → AreKept book.rows → book.block_out ≡ None → IsControl frame
        → LeadsTo setup false book (sending frame) (paid_of book frame) [] }
{}

/// What an act leads to: it calls for nothing. With octets for an upstream another exchange of its
/// connection may begin (`given_after`).
pub fn acts_lead()
    ensures opens { (setup : Setup) (book : Book) (k route : ℕ) → AreKept book.rows
        → LeadsTo setup false book (Did (Open k route)) (record book { given = record { k = k; route = route; stream = book.last } ∷ book.given }) [] }
    ensures puts { (setup : Setup) (book : Book) (k : ℕ) (octets : List ℕ) → AreKept book.rows
        → LeadsTo setup false book (Did (ToUp k octets)) (record book { given = given_after book.given book.last (Did (ToUp k octets)) }) [] }
    ensures closes { (setup : Setup) (book : Book) (k : ℕ) → AreKept book.rows → LeadsTo setup false book (Did (Close k)) book [] }
    ensures shuts { (setup : Setup) (book : Book) → AreKept book.rows → LeadsTo setup false book (Did CloseClient) (record book { closed = true }) [] }
{}

/// What an event that isn't octets of the client leads to, unless it is the client's end.
/// - `fails`: the answer for a stream fails with an event of its upstream. It calls for a reset
///   where a final head is out, unless the gateway replies itself already;
/// - `heard`: no answer fails with it; `took`: the client's side took octets;
/// - `drains`: the operator asks for the end. It calls for the GOAWAY, unless none might be opened before.
pub fn events_lead()
    ensures fails { (setup : Setup) (book : Book) (event : Event) (stream : ℕ) → AreKept book.rows → (upstream_of event == 0) ≡ false
        → given (upstream_of event) book.given ≡ stream → (stream == 0) ≡ false
        → LeadsTo setup true book (Happened event) (behind_failure book stream) (reset_if_out book stream) }
    ensures heard { (setup : Setup) (book : Book) (event : Event) → AreKept book.rows → is_of_upstream event ≡ true
        → LeadsTo setup false book (Happened event) (record book { ends = false }) [] }
    ensures took { (setup : Setup) (book : Book) (count : ℕ) → AreKept book.rows
        → LeadsTo setup false book (Happened (ClientTook count)) (record book { ends = false; untaken = book.untaken - count }) [] }
    ensures drains { (setup : Setup) (book : Book) → AreKept book.rows → length book.rows ≤ most_streams
        → LeadsTo setup false book (Happened Drain) (record book { ends = false; drained = true }) (goaway_of_drain book) }
{}

/// What is kept and owed behind an entry that leads so: a frame that is sent pays what is owed
/// first, unless it is a GOAWAY in place of another, and an act pays nothing.
pub fn ledgers_follow()
    ensures sent { (setup : Setup) (fails : Bool) (ledger : Ledger) (noted : Noted) (new : Book) (called : List Frame)
        → (is_calming noted.frame && not ledger.book.ends) ≡ false → LeadsTo setup fails ledger.book (Sent noted) new called
        → ledger_after setup ledger (record { entry = Sent noted; fails = fails }) ≡ record { book = new; queue = rest_of ledger.queue ++ called } }
    ensures did { (setup : Setup) (fails : Bool) (ledger : Ledger) (act : Act) (new : Book) (called : List Frame)
        → LeadsTo setup fails ledger.book (Did act) new called
        → ledger_after setup ledger (record { entry = Did act; fails = fails }) ≡ record { book = new; queue = ledger.queue } }
    ensures happened { (setup : Setup) (fails : Bool) (ledger : Ledger) (event : Event) (new : Book) (called : List Frame)
        → LeadsTo setup fails ledger.book (Happened event) new called
        → ledger_after setup ledger (record { entry = Happened event; fails = fails }) ≡ record { book = new; queue = called } }
{}

/// The increment that a WINDOW_UPDATE is written with is the one that it is read with (RFC 9113, section 6.9).
pub fn increments_are_told()
    ensures { (flags id count : ℕ) → count < 2147483648 → increment (update flags id (spell_number count)) ≡ count }
{}
