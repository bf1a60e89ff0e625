//! Which streams were opened, in which states they are, and what that says of a frame (RFC 9113, section 5.1).
//!
//! [`Streams`] is a library type, on no path of the gateway: its streams are kept by `streams`, by
//! the same states and standings.
#![tactic(auto)]

ghost use Rattle.std.specs.Prelude.{◌≡◌, ◌≤◌, [], ◌∷◌, ◌++◌, length, OnOk, OnErr};
ghost use Rattle.model.specs.StreamStates.{StreamState, standing, verdict, active_count, changed};
ghost use Rattle.model.specs.Limits.{most_streams};
ghost use Rattle.model.specs.StreamStates.Change.{RemoteEnds, LocalEnds, PeerResets, WeReset};

mod records;
mod states;
mod verdicts;

use crate::records::{Record, highest_id, place_of};
pub use crate::states::State;
use crate::states::{Step, count_after};
pub use crate::verdicts::{Kind, Standing, Verdict, unopened_standing, verdict_at};
use protocol::limits;
use std::alloc::{AllocError, Global};
use std::marker::Model;

/// How many streams are opened on a connection (this project's profile).
const MOST_STREAMS: usize = limits::MOST_STREAMS as usize;

/// The streams that were opened on a connection, seen as a list of their ids and states, the first opened first.
#[derive(Debug, Drop)]
pub struct Streams {
    records: Vec<Record>,
    active: u32,
}

impl Model for Streams {
    ghost use Rattle.std.specs.Prelude.{List};
    ghost use Rattle.model.specs.StreamStates.{OpenedStream};
    ghost use Rattle.stream_state.specs.Records.{streams_in, IsKept};

    ghost Value = { List OpenedStream };

    ghost view = { λ streams. streams_in streams.records.items };

    ghost invariant = { λ streams. IsKept streams.records.items streams.active };
}

impl Streams {
    ghost use Rattle.stream_state.specs.Views.{change_in, kind_in, standing_in, verdict_in, highest_in, IsOpenable, AllowsOpening};

    /// A connection on which no stream was opened.
    pub fn new(alloc: Global) -> Self
        ensures { result ≡ [] }
    {
        Streams {
            records: Vec::new(alloc),
            active: 0,
        }
    }

    /// What comes of a frame on this id by the state of its stream (RFC 9113, sections 5.1, 5.1.1
    /// and 5.1.2). An id above that of the 10,000th stream, and above all where the connection is
    /// drained, is one that a GOAWAY with NO_ERROR has ruled out (RFC 9113, section 6.8).
    ///
    /// DATA and RST_STREAM on 0, which the id alone is against, pass here: they are judged before
    /// (RFC 9113, sections 6.1 and 6.4). Where the answer is `Open`, or REFUSED_STREAM for want of
    /// room, `open` may be called with the id.
    pub fn verdict(&self, drained: bool, id: u32, kind: Kind) -> Verdict
        ensures is { verdict_in result ≡ verdict (active_count self.now) (standing drained self.now id) (kind_in kind) }
        ensures allows { AllowsOpening result id self.now }
    {
        let standing = self.standing(drained, id);
        verdict_at(self.active, standing, kind)
    }

    /// How an id stands to the streams that were opened (RFC 9113, sections 5.1 and 5.1.1): so an
    /// idle stream is told apart from one that is closed. An id above that of the 10,000th stream,
    /// and above all where the connection is drained, is beyond the last that a GOAWAY with
    /// NO_ERROR named (RFC 9113, section 6.8).
    pub fn standing(&self, drained: bool, id: u32) -> Standing
        ensures { standing_in result ≡ standing drained self.now id }
    {
        if id == 0 {
            return Standing::WholeConnection;
        }
        match place_of(&self.records, id) {
            Ok(place) => Standing::Opened(self.records[place].state),
            Err(place) => {
                let count = self.records.len();
                unopened_standing(id, place == count, drained, count == MOST_STREAMS)
            }
        }
    }

    /// Opens a stream (RFC 9113, section 5.1): its id is added, and is active. It is odd and above
    /// all that were opened, of which there are fewer than 10,000. The only error is that no memory
    /// was left, and then nothing changes.
    pub fn open(&mut self, id: u32) -> Result<(), AllocError>
        requires { IsOpenable id self.old }
        ensures ok { OnOk result (self.new ≡ self.old ++ record { id = id; state = StreamState.Open } ∷ []) }
        ensures err { OnErr result (self.new ≡ self.old) }
    {
        self.records.push(Record {
            id,
            state: State::Open,
        })?;
        self.active += 1;
        Ok(())
    }

    /// The client ended the active stream with this id (RFC 9113, section 5.1). Any other stream stays as it is, and so
    /// does this one where the client had ended it before.
    pub fn end_remote(&mut self, id: u32)
        ensures { self.new ≡ changed RemoteEnds id self.old }
    {
        self.change(id, Step::RemoteEnds)
    }

    /// The gateway ended the active stream with this id (RFC 9113, section 5.1). Any other stream
    /// stays as it is, and so does this one where the gateway had ended it before.
    pub fn end_local(&mut self, id: u32)
        ensures { self.new ≡ changed LocalEnds id self.old }
    {
        self.change(id, Step::LocalEnds)
    }

    /// The gateway reset the active stream with this id (RFC 9113, section 5.1). Any other stream stays as it is.
    pub fn reset_by_us(&mut self, id: u32)
        ensures { self.new ≡ changed WeReset id self.old }
    {
        self.change(id, Step::WeReset)
    }

    /// The client reset the active stream with this id (RFC 9113, section 5.1). Any other stream stays as it is.
    pub fn reset_by_peer(&mut self, id: u32)
        ensures { self.new ≡ changed PeerResets id self.old }
    {
        self.change(id, Step::PeerResets)
    }

    /// How many streams are active: opened, not reset, and not ended by both sides (RFC 9113, section 5.1.2).
    pub fn active(&self) -> u32
        ensures is { result ≡ active_count self.now }
        ensures few { result ≤ most_streams }
    {
        let Streams { active, .. } = self;
        *active
    }

    /// How many streams were opened, whatever became of them (RFC 9113, section 5.1); at most 10,000.
    pub fn count(&self) -> u32
        ensures is { result ≡ length self.now }
        ensures few { result ≤ most_streams }
    {
        self.records.len() as u32
    }

    /// The highest id of a stream that was opened, or 0 where none was: it is what a GOAWAY names
    /// (RFC 9113, section 6.8).
    pub fn highest(&self) -> u32
        ensures { result ≡ highest_in self.now }
    {
        highest_id(&self.records)
    }

    /// Changes the state of the stream with this id, if it was opened.
    fn change(&mut self, id: u32, step: Step)
        ensures { self.new ≡ changed (change_in step) id self.old }
    {
        let Ok(place) = place_of(&self.records, id) else {
            return;
        };
        let before = self.records[place].state;
        let state = before.after(step);
        self.records[place] = Record { id, state };
        self.active = count_after(self.active, before, state);
    }
}
