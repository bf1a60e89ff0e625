//! Which requests go to upstreams, and how long their connections live: what a gateway keeps of
//! that, by which rule it moves, and that it keeps the clauses on requests and on upstream
//! connections then.
//!
//! [`requests_are_served`] is the theorem. Its premises, and where each comes from:
//! - `AreAllowed`: each move was allowed by what was kept and by what was told before and behind
//!   it. That is for whoever moves to show; what it says of written text (`Sending`, `Continues`)
//!   is what the calls of `h1_writer` ensure.
//! - `AreSo`: what was told is so (`IsTold`): which streams are served by `theory_errors`'s summary
//!   ([`served_streams`]; its `book_tells` has the book), whether the connection is to end
//!   (`summary_tells` there, clause `ends`) and is closed, by the same; which item each frame adds
//!   (`Brings`), by `theory_errors`'s verdict on the frame ([`added_items`]), and that any other
//!   adds none (`items_stay` of `model`); and of an answer whether its response is whole, and
//!   whether its connection may be kept behind it (`Verdict`): what was heard is what an
//!   `h1_reader` read, whether the request was sent whole is told by the state
//!   ([`requests_are_told`]), and what comes of an idle connection ends that ([`idle_answers`]).
//! - `Rests`: the step ends where nothing is due, no connection is done with, and the client is
//!   closed if it is to be; the last is the end that the concern of errors rests at. Before each
//!   thing that comes in it follows from the rule ([`served_in_turn`]).
//!
//! What `h1_writer`'s calls require for an item that a frame adds holds ([`written_items`]). What
//! is held of requests is bounded ([`requests_are_bounded`]).
#![tactic(auto)]

ghost use Rattle.std.specs.Prelude.{◌≡◌, ℕ, ◌+◌, ◌*◌, ◌^◌, ◌<◌, ◌≤◌, Bool, true, false, ◌&&◌, ◌==◌, List, [], ◌∷◌};
ghost use Rattle.std.specs.Prelude.{◌++◌, length, Option, Some, None, is_none, is_some};
ghost use Rattle.std.specs.List.{concat};
ghost use Rattle.model.specs.Messages.{Field, Item, Request};
ghost use Rattle.model.specs.Http1.{H1Request};
ghost use Rattle.model.specs.Messages.Item.{Block, Content};
ghost use Rattle.model.specs.Http2.{HasLength};
ghost use Rattle.model.specs.Frames.{rst_stream_kind};
ghost use Rattle.model.specs.Setup.{Setup};
ghost use Rattle.model.specs.Setup.Passing.{Streaming};
ghost use Rattle.model.specs.Logs.Event.{Up, UpEnd};
ghost use Rattle.model.specs.Tapes.{Noted, Entry, IsRead, came, is_closed};
ghost use Rattle.model.specs.Tapes.Entry.{Came, Happened};
ghost use Rattle.model.specs.Decoding.{completed};
ghost use Rattle.model.specs.Streams.{frame_items};
ghost use Rattle.model.specs.Known.{Known};
ghost use Rattle.model.specs.Headline.{HoldsInTurn};
ghost use Rattle.model.specs.Causes.{Cause};
ghost use Rattle.model.specs.Openings.{Opened, exchanges, exchange_on, given, last_stream, sent_for};
ghost use Rattle.model.specs.Idle.{IsIdle};
ghost use Rattle.model.specs.Available.{IsIn};
ghost use Rattle.model.specs.Admission.{is_open};
ghost use Rattle.model.specs.Lifetimes.{active, is_active, is_ended_by_client};
ghost use Rattle.model.specs.Courses.{course, items, cause, cause_of, fault};
ghost use Rattle.request_rules.specs.Heads.{parts_of};
ghost use Rattle.h1_writer.specs.Sending.{Stage, MayPush, MayFinish};
ghost use Rattle.h1_writer.specs.Sending.Stage.{Whole};
ghost use Rattle.theory_requests.specs.Written.{IsWritten, IsAwaited, IsTaken};
ghost use Rattle.theory_requests.specs.Told.{is_served, Told};
ghost use Rattle.theory_requests.specs.Lines.{Line, line_of, idle_ones};
ghost use Rattle.theory_requests.specs.Lines.Heard.{Keepable, Finished};
ghost use Rattle.theory_requests.specs.Pool.{Verdict};
ghost use Rattle.theory_requests.specs.State.{Held, held_of, State, Turn, state_of, tape_of};
ghost use Rattle.theory_requests.specs.State.Due.{Nothing, ToSend};
ghost use Rattle.theory_requests.specs.Rule.{MayCome, MayOpen, MayUse, told_of, AreAllowed, Rests};
ghost use Rattle.theory_requests.specs.Connections.{IsAbout, IsOpenedFor, IsUsedFor, IsRequestSent};
ghost use Rattle.theory_requests.specs.Held.{held_requests, held_for, held_octets, most_beside, AreApart, FitFrames};
ghost use Rattle.theory_requests.specs.Meaning.{Brings, AreSo, KeepClauses};

/// Moves that are allowed, and that say what is so, keep the clauses on requests and on upstream
/// connections wherever they rest.
pub fn requests_are_served()
    ensures { (known : Known) (turns : List Turn) → AreAllowed known.setup turns → AreSo known turns → Rests (told_of turns) (state_of known.setup turns)
        → KeepClauses known (tape_of turns) }
{}

/// Something comes in only where the step might end: so the clauses hold before each thing that comes in.
pub fn served_in_turn()
    ensures at_rest { (told : Told) (s : State) → MayCome told s → Rests told s }
    ensures in_turn { (known : Known) (turns : List Turn) → AreAllowed known.setup turns → AreSo known turns → HoldsInTurn (KeepClauses known) (tape_of turns) }
{}

/// What the state tells the other concerns of connections:
/// - `up`: a connection is kept just where it is open;
/// - `heard`: an event of one is about its stream, which is active and not answered by the gateway
///   itself, while its answer is pending, and else the connection is idle;
/// - `opened`, `used`: the next is opened, or an idle one is given, for the stream of the last
///   frame; it is opened only where none of the route is idle, and what is given is the least that
///   is;
/// - `sent`: any other octets go to the connection that this stream was given;
/// - `past`: where a connection was given to another stream since, the client has ended the stream
///   of the exchange before: no more DATA comes on it, and no octets go back on it.
pub fn connections_are_told()
    ensures up { (known : Known) (turns : List Turn) → AreAllowed known.setup turns → AreSo known turns → (k : ℕ)
        → is_some (line_of k (state_of known.setup turns).live) ≡ is_open k (tape_of turns) }
    ensures heard { (known : Known) (turns : List Turn) → AreAllowed known.setup turns → AreSo known turns
        → MayCome (told_of turns) (state_of known.setup turns) → (k : ℕ) (line : Line) → line_of k (state_of known.setup turns).live ≡ Some line
        → IsAbout known (tape_of turns) k line.answer }
    ensures opened { (known : Known) (turns : List Turn) → AreAllowed known.setup turns → AreSo known turns → (k route : ℕ)
        → MayOpen (state_of known.setup turns) k route → IsOpenedFor known (tape_of turns) k route }
    ensures used { (known : Known) (turns : List Turn) → AreAllowed known.setup turns → AreSo known turns → (k : ℕ) (octets : List ℕ)
        → MayUse (state_of known.setup turns) k octets → IsUsedFor known (tape_of turns) k octets }
    ensures sent { (known : Known) (turns : List Turn) → AreAllowed known.setup turns → AreSo known turns → (k : ℕ) (octets : List ℕ)
        → (state_of known.setup turns).due ≡ ToSend k octets → given k (exchanges (tape_of turns)) ≡ last_stream (tape_of turns) }
    ensures past { (known : Known) (turns : List Turn) → AreAllowed known.setup turns → AreSo known turns → (o : Opened)
        → IsIn o (exchanges (tape_of turns)) → (given o.k (exchanges (tape_of turns)) ≡ o.stream → ⊥) → is_ended_by_client o.stream (tape_of turns) ≡ true }
{}

/// Whether the request that a connection was last given for was sent whole is told by what is held,
/// where nothing is due: where nothing is held of its stream, and that is served, it was; where
/// something is, what was sent is no request. So of an answer that is whole no more has to be known
/// of the request, to tell whether the connection may be kept behind it.
pub fn requests_are_told()
    ensures whole { (known : Known) (turns : List Turn) → AreAllowed known.setup turns → AreSo known turns → (state_of known.setup turns).due ≡ Nothing
        → (k : ℕ) (line : Line) → line_of k (state_of known.setup turns).live ≡ Some line → is_served known line.stream (tape_of turns) ≡ true
        → held_of line.stream (state_of known.setup turns).held ≡ None → IsRequestSent known (tape_of turns) k }
    ensures part { (known : Known) (turns : List Turn) → AreAllowed known.setup turns → AreSo known turns → (state_of known.setup turns).due ≡ Nothing
        → (k : ℕ) (line : Line) → line_of k (state_of known.setup turns).live ≡ Some line → (held : Held)
        → held_of line.stream (state_of known.setup turns).held ≡ Some held → (request : Request)
        → H1Request (sent_for (exchange_on k (tape_of turns)) (tape_of turns)) request → ⊥ }
{}

/// What is told of an answer that comes of an idle connection: octets or an end finish it, so that
/// it is closed, and no octets leave it idle.
pub fn idle_answers()
    ensures octets { (known : Known) (t : List Entry) (k : ℕ) → IsIdle known t k → (octet : ℕ) (octets : List ℕ)
        → Verdict known (Happened (Up k (octet ∷ octets)) ∷ t) (exchange_on k t) Finished }
    ensures ended { (known : Known) (t : List Entry) (k : ℕ) → IsIdle known t k → Verdict known (Happened (UpEnd k) ∷ t) (exchange_on k t) Finished }
    ensures none { (known : Known) (t : List Entry) (k : ℕ) → IsIdle known t k → Verdict known (Happened (Up k []) ∷ t) (exchange_on k t) Keepable }
{}

/// Which streams are served is told by which are active, and of these alone why the gateway answers them.
pub fn served_streams()
    ensures { (known : Known) (t : List Entry) (active : ℕ → Bool) (why : ℕ → Option Cause) → ((stream : ℕ) → active stream ≡ is_active stream t)
        → ((stream : ℕ) → is_active stream t ≡ true → why stream ≡ cause known stream t) → (stream : ℕ)
        → (active stream && is_none (why stream)) ≡ is_served known stream t }
{}

/// A frame adds the item that it has to its stream, where it has no fault, resets nothing, is no
/// cause of an answer of the gateway's own, and the stream's items weren't over. Any other frame
/// adds none (`items_stay` of `model`).
pub fn added_items()
    ensures { (known : Known) (t : List Entry) (noted : Noted) (item : Item) → (course known noted.frame.id t).over ≡ false
        → fault known t (Came noted) ≡ None → (noted.frame.kind == rst_stream_kind) ≡ false → cause_of known noted.frame.id t (Came noted) ≡ None
        → frame_items (completed (came t) noted.frame) noted ≡ item ∷ [] → is_ended_by_client noted.frame.id t ≡ false → Brings known t noted item }
{}

/// What the calls of `h1_writer` require for an item that a frame adds to a stream which the
/// gateway doesn't answer: a head is one of which a text may be written; so many octets may be
/// pushed, and those that end the stream make the body as long as declared; and trailers end the
/// stream, and the text may be ended. Of a request that waits, octets that end the stream make its
/// body as long as declared, and so it is where trailers end it: the whole body may be pushed at
/// once.
pub fn written_items()
    ensures head { (known : Known) (t : List Entry) (noted : Noted) (head : List Field) (ended : Bool) → items known noted.frame.id t ≡ []
        → Brings known t noted (Block head ended) → 0 < noted.frame.id → cause known noted.frame.id (Came noted ∷ t) ≡ None → IsTaken known.setup head ended }
    ensures octets { (known : Known) (t : List Entry) (noted : Noted) (octets : List ℕ) (ends : Bool) (text : List ℕ) (stage : Stage)
        → Brings known t noted (Content octets ends) → 0 < noted.frame.id → cause known noted.frame.id (Came noted ∷ t) ≡ None
        → (w : IsWritten known.setup.keep (items known noted.frame.id t) text stage) → (stage ≡ Whole → ⊥) → MayPush stage (length octets)
        × (ends ≡ true → HasLength (parts_of w.head).length (concat w.pieces ++ octets)) }
    ensures trailers { (known : Known) (t : List Entry) (noted : Noted) (fields : List Field) (ends : Bool) (text : List ℕ) (stage : Stage)
        → Brings known t noted (Block fields ends) → 0 < noted.frame.id → cause known noted.frame.id (Came noted ∷ t) ≡ None
        → IsWritten known.setup.keep (items known noted.frame.id t) text stage → (stage ≡ Whole → ⊥) → (ends ≡ true) × MayFinish stage }
    ensures last_octets { (known : Known) (t : List Entry) (noted : Noted) (octets : List ℕ) (text : List ℕ) (stage : Stage) (body : List ℕ)
        → Brings known t noted (Content octets true) → 0 < noted.frame.id → cause known noted.frame.id (Came noted ∷ t) ≡ None
        → (w : IsAwaited known.setup.keep (items known noted.frame.id t) text stage body) → MayPush stage (length (body ++ octets))
        × HasLength (parts_of w.head).length (body ++ octets) }
    ensures last_trailers { (known : Known) (t : List Entry) (noted : Noted) (fields : List Field) (ends : Bool) (text : List ℕ) (stage : Stage)
        (body : List ℕ) → Brings known t noted (Block fields ends) → 0 < noted.frame.id → cause known noted.frame.id (Came noted ∷ t) ≡ None
        → (w : IsAwaited known.setup.keep (items known noted.frame.id t) text stage body) → (ends ≡ true) × MayPush stage (length body)
        × HasLength (parts_of w.head).length body }
{}

/// What is held of requests, in octets, is bounded at any time, by premises that are those of
/// [`requests_are_served`], though the step needn't end there:
/// - `stream`: for one stream, what waits of its request and what is due to go out together, no
///   more than a body that the gateway takes and 32,888 octets (`most_beside`), where that body's
///   length fits 64 bits, as a configured one does;
/// - `streaming`: no more than 32,888 octets where requests are passed on as they come, each frame
///   of the client's being one that can be spelled: a head, or one frame's worth in a chunk;
/// - `going`: of a request that is passed on as it comes, nothing waits behind what is due but one
///   octet that may be held back;
/// - `frames`: frames can be spelled where the client's octets are read as these;
/// - `apart`, `served`, `few`: no stream is held twice, each that is held is served, and they are
///   no more than are active;
/// - `none_else`: for a stream that isn't served nothing is held, nor due;
/// - `closed`: nothing is held, of any stream, once the client is closed;
/// - `together`: all that is held and due, by the number of streams that are active;
/// - `connections`: where the gateway rests, no more connections are open than streams are active,
///   but for those that are idle;
/// - `idle`, `none_idle`: of these there are few, and none where no connection is kept.
pub fn requests_are_bounded()
    ensures stream { (known : Known) (turns : List Turn) → AreAllowed known.setup turns → AreSo known turns → known.setup.max_body < 2 ^ 64 → (stream : ℕ)
        → held_for stream (state_of known.setup turns) ≤ known.setup.max_body + most_beside }
    ensures streaming { (known : Known) (turns : List Turn) → AreAllowed known.setup turns → AreSo known turns → known.setup.passing ≡ Streaming
        → FitFrames (tape_of turns) → (stream : ℕ) → held_for stream (state_of known.setup turns) ≤ most_beside }
    ensures going { (known : Known) (turns : List Turn) → AreAllowed known.setup turns → AreSo known turns → known.setup.passing ≡ Streaming → (stream : ℕ)
        → held_requests stream (state_of known.setup turns).held ≤ 1 }
    ensures frames { (text : List ℕ) (t : List Entry) → IsRead text t → FitFrames t }
    ensures apart { (setup : Setup) (turns : List Turn) → AreApart (state_of setup turns).held }
    ensures served { (known : Known) (turns : List Turn) → AreAllowed known.setup turns → AreSo known turns → (stream : ℕ) (held : Held)
        → held_of stream (state_of known.setup turns).held ≡ Some held → is_served known stream (tape_of turns) ≡ true }
    ensures few { (known : Known) (turns : List Turn) → AreAllowed known.setup turns → AreSo known turns
        → length (state_of known.setup turns).held ≤ length (active (tape_of turns)) }
    ensures none_else { (known : Known) (turns : List Turn) → AreAllowed known.setup turns → AreSo known turns → (stream : ℕ)
        → is_served known stream (tape_of turns) ≡ false → held_for stream (state_of known.setup turns) ≡ 0 }
    ensures closed { (known : Known) (turns : List Turn) → AreAllowed known.setup turns → AreSo known turns → is_closed (tape_of turns) ≡ true
        → held_octets (state_of known.setup turns) ≡ 0 }
    ensures together { (known : Known) (turns : List Turn) → AreAllowed known.setup turns → AreSo known turns → known.setup.max_body < 2 ^ 64
        → held_octets (state_of known.setup turns) ≤ length (active (tape_of turns)) * (known.setup.max_body + most_beside) }
    ensures connections { (known : Known) (turns : List Turn) → AreAllowed known.setup turns → AreSo known turns
        → Rests (told_of turns) (state_of known.setup turns)
        → length (state_of known.setup turns).live ≤ length (active (tape_of turns)) + length (idle_ones (state_of known.setup turns).live) }
    ensures idle { (known : Known) (turns : List Turn) → AreAllowed known.setup turns → AreSo known turns
        → length (idle_ones (state_of known.setup turns).live) ≤ known.setup.most_idle }
    ensures none_idle { (known : Known) (turns : List Turn) → AreAllowed known.setup turns → AreSo known turns → known.setup.keep ≡ false
        → idle_ones (state_of known.setup turns).live ≡ [] }
{}
