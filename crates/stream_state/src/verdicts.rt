//! What comes of a frame by the state of its stream (RFC 9113, sections 5.1, 5.1.1, 5.1.2 and 6.8).

ghost use Rattle.std.specs.Prelude.{◌≡◌, ◌||◌};
ghost use Rattle.model.specs.StreamStates.{opened_verdict, idle_verdict, skipped_verdict, verdict, unopened};
ghost use Rattle.stream_state.specs.Views.{state_in, kind_in, standing_in, verdict_in};

use crate::states::State;
use protocol::error_codes::{PROTOCOL_ERROR, REFUSED_STREAM, STREAM_CLOSED};
use protocol::limits::MOST_ACTIVE;

/// A frame that a stream's state allows or forbids. HEADERS stand for a whole header block.
#[derive(Clone, Copy, Debug, PartialEq, Eq)]
pub enum Kind {
    Data,
    Headers,
    RstStream,
    WindowUpdate,
}

/// What comes of a frame by the state of its stream.
#[derive(Clone, Copy, Debug, PartialEq, Eq)]
pub enum Verdict {
    /// The state allows it.
    Pass,
    /// It opens the stream.
    Open,
    /// Nothing comes of it, but that a block is decoded and the octets of DATA are given back.
    Discard,
    /// An error of the stream with this code (RFC 9113, section 7).
    Stream(u32),
    /// An error of the connection with this code (RFC 9113, section 7).
    Connection(u32),
}

/// How an id stands to the streams that were opened.
#[derive(Clone, Copy, Debug, PartialEq, Eq)]
pub enum Standing {
    /// It is 0, that of the whole connection.
    WholeConnection,
    /// Its stream was opened.
    Opened(State),
    /// The client may open it yet.
    Idle,
    /// It is even, so a server alone might open it.
    ServerIdle,
    /// It wasn't opened before one above it was, so that it is closed.
    Skipped,
    /// It is above the last id that a GOAWAY named.
    Beyond,
}

impl Standing {
    ghost use Rattle.model.specs.ErrorTable.{is_idle};

    /// Whether the stream is idle, to the client or to a server: it wasn't opened, and isn't closed
    /// (RFC 9113, section 5.1).
    pub fn is_idle(self) -> bool
        ensures { result ≡ is_idle (standing_in self) }
    {
        match self {
            Standing::Idle | Standing::ServerIdle => true,
            Standing::WholeConnection
            | Standing::Opened(_)
            | Standing::Skipped
            | Standing::Beyond => false,
        }
    }
}

/// The verdict on a frame by the standing of its id, where so many streams are active.
pub fn verdict_at(active: u32, standing: Standing, kind: Kind) -> Verdict
    ensures { verdict_in result ≡ verdict active (standing_in standing) (kind_in kind) }
{
    match standing {
        Standing::WholeConnection => match kind {
            Kind::Headers => Verdict::Connection(PROTOCOL_ERROR),
            _ => Verdict::Pass,
        },
        Standing::Opened(state) => opened_verdict(state, kind),
        Standing::Idle => idle_verdict(active, kind),
        Standing::ServerIdle => Verdict::Connection(PROTOCOL_ERROR),
        Standing::Skipped => skipped_verdict(kind),
        Standing::Beyond => Verdict::Discard,
    }
}

/// The verdict on a stream that was opened.
fn opened_verdict(state: State, kind: Kind) -> Verdict
    ensures { verdict_in result ≡ opened_verdict (state_in state) (kind_in kind) }
{
    match (state, kind) {
        (State::Open | State::HalfClosedLocal, _) => Verdict::Pass,
        (State::HalfClosedRemote, Kind::Data | Kind::Headers) => Verdict::Stream(STREAM_CLOSED),
        (State::HalfClosedRemote, _) => Verdict::Pass,
        (State::ResetByUs, _) => Verdict::Discard,
        (_, Kind::Data | Kind::Headers) => Verdict::Connection(STREAM_CLOSED),
        _ => Verdict::Discard,
    }
}

/// The verdict on a stream that the client may open yet.
fn idle_verdict(active: u32, kind: Kind) -> Verdict
    ensures { verdict_in result ≡ idle_verdict active (kind_in kind) }
{
    match kind {
        Kind::Headers if active < MOST_ACTIVE => Verdict::Open,
        Kind::Headers => Verdict::Stream(REFUSED_STREAM),
        _ => Verdict::Connection(PROTOCOL_ERROR),
    }
}

/// The verdict on a stream that was passed over.
fn skipped_verdict(kind: Kind) -> Verdict
    ensures { verdict_in result ≡ skipped_verdict (kind_in kind) }
{
    match kind {
        Kind::Headers => Verdict::Connection(PROTOCOL_ERROR),
        Kind::Data => Verdict::Connection(STREAM_CLOSED),
        _ => Verdict::Discard,
    }
}

/// The standing of an id that wasn't opened: whether it is above every opened one, and whether none
/// may be opened any more, since the connection is drained or all were.
pub fn unopened_standing(id: u32, above: bool, drained: bool, full: bool) -> Standing
    ensures { standing_in result ≡ unopened above (drained || full) id }
{
    if above && (drained || full) {
        Standing::Beyond
    } else if id % 2 == 0 {
        Standing::ServerIdle
    } else if above {
        Standing::Idle
    } else {
        Standing::Skipped
    }
}
