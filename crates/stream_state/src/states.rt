//! The states of streams that were opened (RFC 9113, section 5.1).

ghost use Rattle.std.specs.Prelude.{◌≡◌, ◌+◌, ◌≤◌};
ghost use Rattle.model.specs.Limits.{most_streams};
ghost use Rattle.stream_state.specs.Views.{counted};

/// The state of a stream that was opened; a closed one is told apart by what closed it.
#[derive(Clone, Copy, Debug, PartialEq, Eq)]
pub enum State {
    /// Neither side has ended it.
    Open,
    /// The client alone has ended it.
    HalfClosedRemote,
    /// The gateway alone has ended it.
    HalfClosedLocal,
    /// Both sides have ended it.
    Closed,
    ResetByPeer,
    ResetByUs,
}

/// What changes the state of a stream.
#[derive(Clone, Copy, Debug, PartialEq, Eq)]
pub enum Step {
    RemoteEnds,
    LocalEnds,
    PeerResets,
    WeReset,
}

impl State {
    ghost use Rattle.model.specs.StreamStates.{is_active, after};
    ghost use Rattle.stream_state.specs.Views.{state_in, change_in};

    /// Whether neither a reset nor both ends have closed the stream (RFC 9113, section 5.1).
    pub fn is_active(self) -> bool
        ensures { result ≡ is_active (state_in self) }
    {
        match self {
            State::Open | State::HalfClosedRemote | State::HalfClosedLocal => true,
            State::Closed | State::ResetByPeer | State::ResetByUs => false,
        }
    }

    /// The state behind a step; a closed stream stays as it is, and so does a side that has ended.
    pub(crate) fn after(self, step: Step) -> State
        ensures { state_in result ≡ after (change_in step) (state_in self) }
    {
        if !self.is_active() {
            return self;
        }
        match (step, self) {
            (Step::PeerResets, _) => State::ResetByPeer,
            (Step::WeReset, _) => State::ResetByUs,
            (Step::RemoteEnds, State::Open) => State::HalfClosedRemote,
            (Step::RemoteEnds, State::HalfClosedLocal) => State::Closed,
            (Step::LocalEnds, State::Open) => State::HalfClosedLocal,
            (Step::LocalEnds, State::HalfClosedRemote) => State::Closed,
            _ => self,
        }
    }
}

/// How many streams are active when one of them has gone from one state to another.
pub fn count_after(active: u32, before: State, after: State) -> u32
    requires counted { counted before ≤ active }
    requires few { active ≤ most_streams }
    ensures { result + counted before ≡ active + counted after }
{
    active - u32::from(before.is_active()) + u32::from(after.is_active())
}
