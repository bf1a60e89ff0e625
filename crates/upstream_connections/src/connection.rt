//! An open connection to an upstream.

ghost use Rattle.std.specs.Prelude.{◌≡◌, suc, ◌+◌, ◌<◌, ◌≤◌, ◌==◌, ◌^◌, [], Some, MatchBool};
ghost use Rattle.theory_requests.specs.Lines.{is_idle};
ghost use Rattle.theory_requests.specs.Lines.Answer.{Pending};
ghost use Rattle.upstream_connections.specs.Connections.{opened, works_for};
ghost use Rattle.upstream_connections.specs.Keys.{idle_route};
ghost use Rattle.upstream_connections.specs.Progress.{answer_of};
ghost use Rattle.h1_reader.specs.Standing.{Stands};

use crate::progress::Progress;
use std::alloc::Global;
use std::marker::Model;
use upstream_response::{Answer, ResponsePassing};

/// An open connection to an upstream: its number, from 1 in the order in which they are opened; the
/// place of its route; the stream that it was given to last; how far the response to that is; the
/// answer as it has come; and the octets that were put out for it and that its side took.
#[derive(Drop)]
pub struct UpstreamConnection {
    number: u32,
    route: u32,
    stream: u32,
    progress: Progress,
    answer: Answer,
    put_out: u64,
    taken: u64,
}

impl Model for UpstreamConnection {
    ghost use Rattle.std.specs.Prelude.{◌≤◌};
    ghost use Rattle.upstream_connections.specs.Connections.{Connection};
    ghost use Rattle.upstream_connections.specs.Progress.{answer_of};

    ghost Value = { Connection };

    ghost view = { λ c. record {
      live = record { k = c.number; route = c.route; stream = c.stream; answer = answer_of c.progress };
      answer = c.answer;
      out = c.put_out;
      took = c.taken;
    } };

    ghost invariant = { λ c. c.taken ≤ c.put_out };
}

impl UpstreamConnection {
    ghost use Rattle.std.specs.Borrow.{sem};
    ghost use Rattle.upstream_connections.specs.Lends.{LendsOwn};

    /// A connection that was just opened for a stream, by the route at this place, whose request's
    /// method is HEAD or isn't.
    pub(crate) fn opened(
        alloc: Global,
        number: u32,
        route: u32,
        stream: u32,
        to_head: bool,
        passing: ResponsePassing,
    ) -> UpstreamConnection
        ensures is { result ≡ opened number route stream to_head passing }
        ensures stands { Stands [] [] result.answer.reader }
    {
        UpstreamConnection {
            number,
            route,
            stream,
            progress: Progress::Pending,
            answer: Answer::new(alloc, to_head, passing),
            put_out: 0,
            taken: 0,
        }
    }

    /// Its number.
    pub fn number(&self) -> u32
        ensures { result ≡ self.now.live.k }
    {
        self.number
    }

    /// The id of the stream that it was given to last.
    pub fn stream(&self) -> u32
        ensures { result ≡ self.now.live.stream }
    {
        self.stream
    }

    /// Whether it works for this stream: it was given to that last, and isn't idle.
    pub(crate) fn works_for(&self, id: u32) -> bool
        ensures { result ≡ (works_for self.now == suc id) }
    {
        !self.is_idle() && self.stream == id
    }

    /// How far the response is.
    pub fn progress(&self) -> Progress
        ensures { answer_of result ≡ self.now.live.answer }
    {
        self.progress
    }

    /// Whether it is idle: its response is whole, and it is kept for another request (RFC 9112, section 9.3).
    pub fn is_idle(&self) -> bool
        ensures { result ≡ is_idle self.now.live.answer }
    {
        self.progress.is_idle()
    }

    /// The place of its route, if it is idle.
    pub(crate) fn idle_route(&self) -> Option<u32>
        ensures { result ≡ idle_route (Some self.now) }
    {
        if self.is_idle() {
            Some(self.route)
        } else {
            None
        }
    }

    /// How its response is passed on.
    pub fn passing(&self) -> ResponsePassing
        ensures { result ≡ self.now.answer.way }
    {
        self.answer.passing()
    }

    /// How many octets were put out for it, to all streams that it was given to.
    pub fn put_out(&self) -> u64
        ensures { result ≡ self.now.out }
    {
        self.put_out
    }

    /// How many of them its side took.
    pub fn taken(&self) -> u64
        ensures { result ≡ self.now.took }
    {
        self.taken
    }

    /// How many octets that were put out for it its side hasn't taken yet.
    pub fn untaken(&self) -> u64
        ensures { self.now.took + result ≡ self.now.out }
    {
        self.put_out - self.taken
    }

    /// Whether so many octets more can be counted.
    pub(crate) fn has_room(&self, count: u64) -> bool
        ensures { MatchBool result (self.now.out + count < 2 ^ 64) (self.now.out + count < 2 ^ 64 → ⊥) }
    {
        self.put_out.checked_add(count).is_some()
    }

    /// The response is so far.
    pub(crate) fn mark(&mut self, progress: Progress)
        ensures { self.new ≡ record self.old { live = record self.old.live { answer = answer_of progress } } }
    {
        self.progress = progress;
    }

    /// It is given to a stream, with an answer of which nothing has come.
    pub(crate) fn give(&mut self, stream: u32, answer: Answer)
        ensures { self.new ≡ record self.old { live = record self.old.live { stream = stream; answer = Pending }; answer = answer } }
    {
        self.stream = stream;
        self.progress = Progress::Pending;
        self.answer = answer;
    }

    /// The answer, as far as it has come, to write to.
    pub(crate) fn answer_mut(&mut self) -> &mut Answer
        ensures* lends { sem 𝓛 (LendsOwn self.entry result) }
        ensures is { result.now ≡ self.old.answer }
    {
        &mut self.answer
    }

    /// So many octets more were put out.
    pub(crate) fn put(&mut self, count: u64)
        requires { self.old.out + count < 2 ^ 64 }
        ensures { self.new ≡ record self.old { out = self.old.out + count } }
    {
        self.put_out += count;
    }

    /// So many more were taken.
    pub(crate) fn take(&mut self, count: u64)
        requires { self.old.took + count ≤ self.old.out }
        ensures { self.new ≡ record self.old { took = self.old.took + count } }
    {
        self.taken += count;
    }
}
