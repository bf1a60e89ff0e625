//! What is seen of streams.

use stream_state::{Kind, Standing, State, Verdict};
use streams::{Course, Live, StreamTable};

/// The course of a request whose head came, and which declares nothing.
pub const BEGUN: Course = Course {
    begun: true,
    declared: None,
    octets: 0,
    over: false,
    reply: None,
};

/// What is seen of an active stream.
#[derive(Clone, Copy)]
pub enum Seen {
    Balance(i64),
    Room(i64),
    HeadOut(bool),
    EndedByClient(bool),
    EndedByGateway(bool),
    Replied(bool),
    At(State),
    With(Course),
}

/// What is seen of streams, some of it by an id.
#[derive(Clone, Copy)]
pub enum Fact {
    Active(u32),
    Count(u32),
    Highest(u32),
    Stands(u32, Standing),
    Served(u32, bool),
    Shifts(u32, bool),
    Kept(u32, bool),
    Of(u32, Seen),
    Judged(u32, Kind, Verdict),
}

fn is_seen(live: &Live, seen: Seen) -> bool {
    match seen {
        Seen::Balance(octets) => live.balance() == octets,
        Seen::Room(octets) => live.room() == octets,
        Seen::HeadOut(is) => live.head_out() == is,
        Seen::EndedByClient(is) => live.ended_by_client() == is,
        Seen::EndedByGateway(is) => live.ended_by_gateway() == is,
        Seen::Replied(is) => live.is_replied() == is,
        Seen::At(state) => live.state() == state,
        Seen::With(course) => live.course() == course,
    }
}

/// Whether this is seen of an active stream.
fn is_seen_of(streams: &StreamTable, id: u32, seen: Seen) -> bool {
    match streams.find(id) {
        Some(live) => is_seen(live, seen),
        None => false,
    }
}

/// Whether a first size of windows is too large; one that no window has isn't asked of.
fn shifts_past(streams: &StreamTable, first: u32) -> Option<bool> {
    if first > 2147483647 {
        return None;
    }
    Some(streams.shifts_past(first))
}

fn is_so(streams: &StreamTable, fact: Fact) -> bool {
    match fact {
        Fact::Active(count) => streams.active() == count,
        Fact::Count(count) => streams.count() == count,
        Fact::Highest(id) => streams.highest() == id,
        Fact::Stands(id, standing) => streams.standing(false, id) == standing,
        Fact::Served(id, is) => streams.is_served(id) == is,
        Fact::Shifts(first, is) => shifts_past(streams, first) == Some(is),
        Fact::Kept(id, is) => streams.find(id).is_some() == is,
        Fact::Of(id, seen) => is_seen_of(streams, id, seen),
        Fact::Judged(id, kind, verdict) => streams.verdict(false, id, kind) == verdict,
    }
}

/// Whether all of this is seen.
pub(crate) fn are_so(streams: &StreamTable, facts: &[Fact]) -> bool {
    for fact in facts {
        if !is_so(streams, *fact) {
            return false;
        }
    }
    true
}
