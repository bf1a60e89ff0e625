//! Requests that aren't whole, and open connections.

ghost use Rattle.std.specs.Prelude.{◌≡◌, ◌+◌, ◌<◌, ◌≤◌, [], suc, map, reverse, true, Some, None, is_some, MatchBool, MatchOption, IfSome, OnOk, OnErr, IfOk};
ghost use Rattle.model.specs.Http2.{HasLength};
ghost use Rattle.model.specs.Limits.{most_streams};
ghost use Rattle.h1_reader.specs.Standing.{Stands};
ghost use Rattle.theory_requests.specs.Lines.{find, without, least_idle, idle_ones};
ghost use Rattle.theory_requests.specs.State.{id_of, held_of, drop_from};
ghost use Rattle.theory_requests.specs.State.Due.{ToOpen};
ghost use Rattle.upstream_connections.specs.Requests.{stage_of, due_for, due_by, on_idle, MayTakeOf, Takes};
ghost use Rattle.upstream_connections.specs.Connections.{number_of, works_for, lives, fresh, heard_at, put_at, taken_at, AreRising, HasRoom};
ghost use Rattle.upstream_connections.specs.Kept.{nothing, opened_for, given_for, Begins};
ghost use Rattle.upstream_connections.specs.Progress.{heard_of};

use crate::connection::UpstreamConnection;
use crate::connections;
use crate::held::{self, Due, Held, OutgoingRequest, Way};
use crate::idle::Idle;
use crate::progress::ResponseStage;
use h1_writer::Text;
use hpack_table::Field;
use request_buffer::{Begun, BufferedRequest, Going};
use request_rules::RequestHead;
use std::alloc::{AllocError, Global};
use std::marker::Model;
use upstream_response::{Answer, ResponsePassing};

/// What is held of requests that aren't whole yet, and the open connections to upstreams. A clause sees both with
/// the newest first, and how many connections were opened.
#[derive(Drop)]
pub struct Upstreams {
    alloc: Global,
    held: Vec<Held>,
    connections: Vec<UpstreamConnection>,
    idle: Idle,
    count: u32,
}

impl Model for Upstreams {
    ghost use Rattle.std.specs.Prelude.{reverse};
    ghost use Rattle.upstream_connections.specs.Kept.{State, AreKept};

    ghost Value = { State };

    ghost view = { λ u. record { held = reverse u.held.items; live = reverse u.connections.items; count = u.count } };

    ghost invariant = { λ u. AreKept u.held.items u.connections.items u.idle.numbers.items u.idle.keys.items u.count };
}

impl Upstreams {
    ghost use Rattle.std.specs.Borrow.{sem};
    ghost use Rattle.upstream_connections.specs.Lends.{LendsAnswer};

    /// Nothing is held, and no connection was opened.
    pub fn new(alloc: Global) -> Upstreams
        ensures { result ≡ nothing }
    {
        Upstreams {
            alloc,
            held: Vec::new(alloc),
            connections: Vec::new(alloc),
            idle: Idle::new(),
            count: 0,
        }
    }

    /// The head of a stream's request came (RFC 9112, sections 2 to 3 and 6), whose route is at
    /// this place, and which ends the stream or doesn't; connections are kept for further requests,
    /// or each is closed behind its request (RFC 9112, section 9.6). Where it ends the stream, or
    /// where bodies go out as they come, it is due at once; else it is held until its end. An `Err`
    /// says that memory was refused; it changes nothing.
    pub fn begin(
        &mut self,
        id: u32,
        route: u32,
        head: &RequestHead,
        ended: bool,
        keep: bool,
        at_once: bool,
    ) -> Result<Due, AllocError>
        requires { ended ≡ true → HasLength head.now.length [] }
        ensures begun { IfOk result (λ due. Begins self.old id route keep head.now ended at_once (due_by due) self.new) }
        ensures unchanged { OnErr result (self.new ≡ self.old) }
    {
        match request_buffer::begin(self.alloc, head, ended, keep, route)? {
            Begun::Whole(text) => {
                self.forget(id);
                Ok(self.on_idle(Due::ToOpen(OutgoingRequest {
                    stream: id,
                    route,
                    text: Text::from_octets(text),
                    rest: None,
                })))
            }
            Begun::Waits(request) => {
                if at_once {
                    let request = self.go(id, route, request);
                    return Ok(self.on_idle(Due::ToOpen(request)));
                }
                held::hold(&mut self.held, id, Way::Waiting(request))?;
                Ok(Due::Nothing)
            }
        }
    }

    /// A request that goes out does so on the idle connection of its route that was opened first, if there is one.
    fn on_idle(&self, due: Due) -> Due
        ensures { due_by result ≡ on_idle (lives self.now.live) (due_by due) }
    {
        let Due::ToOpen(request) = due else {
            return due;
        };
        match self.least_idle(request.route) {
            Some(number) => Due::ToUse { number, request },
            None => Due::ToOpen(request),
        }
    }

    /// A request goes out whose body is to come.
    fn go(&mut self, id: u32, route: u32, request: BufferedRequest) -> OutgoingRequest
        requires { request.body ≡ [] }
        ensures due { due_for result ≡ ToOpen id route request.text request.stage }
        ensures rest { self.new ≡ record self.old { held = without id_of id self.old.held } }
    {
        self.forget(id);
        let (text, going) = request.go();
        OutgoingRequest {
            stream: id,
            route,
            text: Text::from_octets(text),
            rest: Some(going),
        }
    }

    /// Octets of the body of a stream's request came, and end it or don't; trailers end it with none, and those that
    /// are passed on stand behind it. What is due behind them is the answer: a
    /// request that waits is due with its end, and one that goes out goes on. An `Err` says that memory was refused.
    pub fn take_body(
        &mut self,
        id: u32,
        octets: &[u8],
        ends: bool,
        trailers: &[Field],
    ) -> Result<Due, AllocError>
        requires { MayTakeOf octets.now ends (held_of id self.old.held) }
        ensures takes { IfOk result (λ due. Takes (lives self.old.live) id octets.now trailers.now ends self.old.held (held_of id self.old.held)
            (due_by due) self.new.held) }
        ensures rest { self.new ≡ record self.old { held = self.new.held } }
    {
        let due = held::take_body(self.alloc, &mut self.held, id, octets, ends, trailers)?;
        Ok(self.on_idle(due))
    }

    /// Whether something is held of a stream's request: it isn't whole yet.
    pub fn holds(&self, id: u32) -> bool
        ensures { result ≡ is_some (held_of id self.now.held) }
    {
        held::holds(&self.held, id)
    }

    /// Nothing is held of a stream any more.
    pub fn forget(&mut self, id: u32)
        ensures { self.new ≡ record self.old { held = without id_of id self.old.held } }
    {
        let _request = held::take(&mut self.held, id);
    }

    /// A connection is opened for a stream, by the route at this place; its request's method is
    /// HEAD or isn't. It has the next number, which is the answer. Where there is a rest of the
    /// request it goes out there as it comes; else nothing of it is held any more. At most 10,000
    /// are ever opened, one for a stream at most. An `Err` says that memory was refused; it changes
    /// nothing.
    pub fn open(
        &mut self,
        stream: u32,
        route: u32,
        to_head: bool,
        passing: ResponsePassing,
        rest: Option<Going>,
    ) -> Result<u32, AllocError>
        requires { self.old.count < most_streams }
        ensures number { IfOk result (λ k. k ≡ suc self.old.count) }
        ensures stands { Stands [] [] (fresh to_head passing).reader }
        ensures opened { OnOk result (self.new ≡ opened_for stream route to_head passing (stage_of rest) self.old) }
        ensures unchanged { OnErr result (self.new ≡ self.old) }
    {
        let k = self.count + 1;
        let connection = UpstreamConnection::opened(self.alloc, k, route, stream, to_head, passing);
        self.connections.push(connection)?;
        if let Err(refused) = held::hold_rest(&mut self.held, stream, k, rest) {
            let _connection = self.connections.pop();
            return Err(refused);
        }
        self.count = k;
        Ok(k)
    }

    /// The idle connection of the route at this place that was opened first, if there is one. It
    /// is searched by halves, and no connection of another route is passed by.
    pub fn least_idle(&self, route: u32) -> Option<u32>
        ensures { result ≡ least_idle route (lives self.now.live) }
    {
        self.idle.least_of(route)
    }

    /// The numbers of the connections that are idle, by rising number.
    pub fn idle(&self) -> &[u32]
        ensures { result.now ≡ reverse (idle_ones (lives self.now.live)) }
    {
        self.idle.numbers.as_slice()
    }

    /// An open connection, which is idle, is given to a stream, whose request's method is HEAD or
    /// isn't (RFC 9112, section 9.3): of the response nothing has come. What was put out for it and
    /// what its side took stays counted. Where there is a rest of the request it goes out there as
    /// it comes; else nothing of it is held any more. An `Err` says that memory was refused; it
    /// changes nothing.
    pub fn give(
        &mut self,
        k: u32,
        stream: u32,
        to_head: bool,
        passing: ResponsePassing,
        rest: Option<Going>,
    ) -> Result<(), AllocError>
        ensures stands { Stands [] [] (fresh to_head passing).reader }
        ensures given { OnOk result (self.new ≡ given_for k stream to_head passing (stage_of rest) self.old) }
        ensures unchanged { OnErr result (self.new ≡ self.old) }
    {
        let answer = Answer::new(self.alloc, to_head, passing);
        held::hold_rest(&mut self.held, stream, k, rest)?;
        connections::strike(&self.connections, &mut self.idle, k);
        connections::give(&mut self.connections, k, stream, answer);
        Ok(())
    }

    /// The open connections, by rising number.
    pub fn connections(&self) -> &[UpstreamConnection]
        ensures all { reverse result.now ≡ self.now.live }
        ensures rising { AreRising result.now }
    {
        self.connections.as_slice()
    }

    /// The open connection with this number, if there is one.
    pub fn find(&self, k: u32) -> Option<&UpstreamConnection>
        ensures { MatchOption result (find number_of k self.now.live ≡ None) (λ connection. find number_of k self.now.live ≡ Some connection.now) }
    {
        connections::find(&self.connections, k)
    }

    /// The newest open connection that works for a stream, if there is one: one that is idle works
    /// for none, since the exchange with its last stream is over.
    pub fn of_stream(&self, id: u32) -> Option<&UpstreamConnection>
        ensures { MatchOption result (find works_for (suc id) self.now.live ≡ None) (λ connection. find works_for (suc id) self.now.live
            ≡ Some connection.now) }
    {
        connections::of_stream(&self.connections, id)
    }

    /// This was heard of the response on a connection. Where it is whole, and the connection may be
    /// kept behind it, that is idle from now on, unless as many others are as may be.
    pub fn mark_heard(&mut self, k: u32, verdict: ResponseStage, most_idle: u8)
        ensures { self.new ≡ record self.old { live = heard_at most_idle k (heard_of verdict) self.old.live } }
    {
        connections::strike(&self.connections, &mut self.idle, k);
        let progress = verdict.progress(most_idle, self.idle.numbers.len());
        if let Some(route) = connections::mark(&mut self.connections, k, progress) {
            self.idle.enter(route, k);
        }
    }

    /// The answer of an open connection, as far as it has come, to write to.
    pub fn answer_mut(&mut self, k: u32) -> Option<&mut Answer>
        ensures* lends { sem 𝓛 (LendsAnswer self.entry k result) }
        ensures is { MatchOption result (find number_of k self.old.live ≡ None) (λ answer. IfSome (find number_of k self.old.live)
            (λ connection. answer.now ≡ connection.answer)) }
    {
        match connections::place_of(&self.connections, k) {
            Some(place) => Some(self.connections[place].answer_mut()),
            None => None,
        }
    }

    /// A connection is closed, and what goes out there is dropped.
    pub fn close(&mut self, k: u32)
        ensures { self.new ≡ record self.old { held = map (drop_from k) self.old.held; live = without number_of k self.old.live } }
    {
        connections::strike(&self.connections, &mut self.idle, k);
        held::drop_from(&mut self.held, k);
        connections::remove(&mut self.connections, k);
    }

    /// Whether so many octets more can be counted for a connection.
    pub fn has_room(&self, k: u32, count: u64) -> bool
        ensures { MatchBool result (HasRoom count (find number_of k self.now.live)) (HasRoom count (find number_of k self.now.live) → ⊥) }
    {
        match connections::find(&self.connections, k) {
            Some(connection) => connection.has_room(count),
            None => true,
        }
    }

    /// So many octets more were put out for a connection.
    pub fn put(&mut self, k: u32, count: u64)
        requires { HasRoom count (find number_of k self.old.live) }
        ensures { self.new ≡ record self.old { live = map (put_at k count) self.old.live } }
    {
        connections::put(&mut self.connections, k, count);
    }

    /// The side of a connection took so many more of the octets that were put out for it.
    pub fn take(&mut self, k: u32, count: u64)
        requires { IfSome (find number_of k self.old.live) (λ connection. connection.took + count ≤ connection.out) }
        ensures { self.new ≡ record self.old { live = map (taken_at k count) self.old.live } }
    {
        connections::take(&mut self.connections, k, count);
    }
}
