//! How far the response on a connection is.

ghost use Rattle.std.specs.Prelude.{◌≡◌};
ghost use Rattle.theory_requests.specs.Lines.{answer_by, is_idle};
ghost use Rattle.upstream_connections.specs.Progress.{answer_of, heard_of};

/// The places for connections that are idle: as many as a `u8` can say that there may be.
pub(crate) const IDLE_PLACES: usize = 255;

/// How far the response on a connection is.
#[derive(Clone, Copy, Debug, PartialEq, Eq)]
pub enum Progress {
    /// It isn't whole.
    Pending,
    /// It is, and the connection is idle: it is kept for another request (RFC 9112, section 9.3).
    Idle,
    /// It is, and the connection is to be closed (RFC 9112, section 9.6).
    Done,
}

/// What was heard of the response on a connection.
#[derive(Clone, Copy, Debug, PartialEq, Eq)]
pub enum ResponseStage {
    /// It isn't whole.
    Partly,
    /// It is, and the connection may be kept behind it (RFC 9112, section 9.3).
    Keepable,
    /// It is, and the connection may not be kept.
    Finished,
}

impl Progress {
    /// Whether the connection is idle.
    pub(crate) fn is_idle(self) -> bool
        ensures { result ≡ is_idle (answer_of self) }
    {
        matches!(self, Progress::Idle)
    }
}

impl ResponseStage {
    /// How far the response is, where so many connections may be idle, and so many others are: one
    /// that may be kept is, where fewer are than may be.
    pub(crate) fn progress(self, most: u8, others: usize) -> Progress
        ensures { answer_of result ≡ answer_by most others (heard_of self) }
    {
        match self {
            ResponseStage::Partly => Progress::Pending,
            ResponseStage::Keepable if others < usize::from(most) => Progress::Idle,
            ResponseStage::Keepable | ResponseStage::Finished => Progress::Done,
        }
    }
}
