//! Where upstream connections aren't kept (`keep` off), each carries one exchange, and the headline
//! means what it means if it speaks of connections alone.
//!
//! `specs/` says each clause so, by names that end in `once`: `heard k` is all that came of a
//! connection, `has_ended k` whether its upstream ended it, `sent_up k` all that it was sent, and
//! `opens` has the one stream that each was opened for. Definitions to which this makes no
//! difference are those of `model`. Each law is that a clause follows so from that of `model`, on a
//! tape on which no connection is kept (`KeepsNone`); the tape of a log is one (`tapes_keep_none`),
//! and so the headline follows too (`headline_once`).
#![tactic(auto)]

ghost use Rattle.std.specs.Prelude.{◌≡◌, ℕ, false, List, ◌∷◌};
ghost use Rattle.model.specs.Logs.{Event, Step};
ghost use Rattle.model.specs.Setup.{Setup};
ghost use Rattle.model.specs.Tapes.{Entry};
ghost use Rattle.model.specs.Openings.{Opened, opens};
ghost use Rattle.model.specs.Available.{IsIn, heard_by, ended_by};
ghost use Rattle.model.specs.Known.{Known};
ghost use Rattle.model.specs.Courses.{course, fault};
ghost use Rattle.model.specs.Failures.{AreJudged};
ghost use Rattle.model.specs.Rooms.{IsAdmitted};
ghost use Rattle.model.specs.ResponseClause.{ResponsesHold};
ghost use Rattle.model.specs.ErrorClause.{ErrorsHold};
ghost use Rattle.model.specs.ProgressClause.{ProgressHolds};
ghost use Rattle.model.specs.WindowClause.{WindowsHold};
ghost use Rattle.model.specs.FloodClause.{FloodsHold};
ghost use Rattle.model.specs.Synchrony.{AreFair};
ghost use Rattle.model.specs.Headline.{HasTape, Headline};
ghost use Rattle.one_exchange.specs.Connections.{heard, has_ended, ComeOfOpen, KeepsNone};
ghost use Rattle.one_exchange.specs.Courses.{course_once, fault_once};
ghost use Rattle.one_exchange.specs.Requests.{RequestsHoldOnce};
ghost use Rattle.one_exchange.specs.Responses.{ResponsesHoldOnce};
ghost use Rattle.one_exchange.specs.Errors.{ErrorsHoldOnce};
ghost use Rattle.one_exchange.specs.Progress.{ProgressHoldsOnce};
ghost use Rattle.one_exchange.specs.Windows.{WindowsHoldOnce};
ghost use Rattle.one_exchange.specs.Floods.{FloodsHoldOnce};
ghost use Rattle.one_exchange.specs.Turns.{AreFairOnce};
ghost use Rattle.one_exchange.specs.Failures.{AreJudgedOnce};
ghost use Rattle.one_exchange.specs.Rooms.{IsAdmittedOnce};
ghost use Rattle.one_exchange.specs.Headline.{HeadlineOnce};

/// What came of an exchange is all that came of its connection, with its end.
pub fn all_is_heard()
    ensures octets { (known : Known) (t : List Entry) (o : Opened) → KeepsNone known t → IsIn o (opens t) → heard_by o t ≡ heard o.k t }
    ensures ended { (known : Known) (t : List Entry) (o : Opened) → KeepsNone known t → IsIn o (opens t) → ended_by o t ≡ has_ended o.k t }
{}

/// The same becomes of each stream, and an entry of the tape has the same fault.
pub fn courses_once()
    ensures course { (known : Known) (t : List Entry) (stream : ℕ) → KeepsNone known t → course_once known stream t ≡ course known stream t }
    ensures fault { (known : Known) (t : List Entry) (e : Entry) → KeepsNone known t → fault_once known t e ≡ fault known t e }
{}

/// What each connection was sent reads as just the request of the stream that it was opened for.
pub fn requests_once()
    ensures { (known : Known) (t : List Entry) → KeepsNone known t → RequestsHoldOnce known t }
{}

/// What the client reads on a stream is what came of the connection that was opened for it, or a
/// reply of the gateway's own.
pub fn responses_once()
    ensures { (known : Known) (t : List Entry) → KeepsNone known t → ResponsesHold known t → ResponsesHoldOnce known t }
{}

/// The same is owed, and the connection with the client ends where it did.
pub fn errors_once()
    ensures { (known : Known) (t : List Entry) → KeepsNone known t → ErrorsHold known t → ErrorsHoldOnce known t }
{}

/// Nothing is due, and each connection is closed with its one exchange.
pub fn progress_once()
    ensures { (known : Known) (t : List Entry) → KeepsNone known t → ProgressHolds known t → ProgressHoldsOnce known t }
{}

/// The same octets of DATA are kept.
pub fn windows_once()
    ensures { (known : Known) (t : List Entry) → KeepsNone known t → WindowsHold known t → WindowsHoldOnce known t }
{}

/// A GOAWAY stands in place of another frame where one would go.
pub fn floods_once()
    ensures { (known : Known) (t : List Entry) → KeepsNone known t → FloodsHold known t → FloodsHoldOnce known t }
{}

/// Turns are fair.
pub fn turns_once()
    ensures { (known : Known) (t : List Entry) → KeepsNone known t → AreFair known t → AreFairOnce known t }
{}

/// Answers fail at the same events.
pub fn failures_once()
    ensures { (known : Known) (t : List Entry) → KeepsNone known t → AreJudged known t → AreJudgedOnce known t }
{}

/// As many octets of an upstream may come.
pub fn rooms_once()
    ensures { (known : Known) (t : List Entry) (event : Event) → KeepsNone known t → IsAdmitted known t event → IsAdmittedOnce known t event }
{}

/// On the tape of a log what comes of an upstream comes while its connection is open; so no connection is kept on it.
pub fn tapes_keep_none()
    ensures open { (known : Known) (steps : List Step) (tape : List Entry) → HasTape known steps tape → ComeOfOpen tape }
    ensures none { (known : Known) (step : Step) (earlier : List Step) (tape : List Entry) → known.setup.keep ≡ false → HasTape known (step ∷ earlier) tape
        → KeepsNone known tape }
{}

/// A log that keeps the headline keeps it as it is said where each connection carries one exchange.
pub fn headline_once()
    ensures { (setup : Setup) (log : List Step) → setup.keep ≡ false → Headline setup log → HeadlineOnce setup log }
{}
