//! The gateway: events in, outputs out.

ghost use Rattle.std.specs.Prelude.{◌≡◌, ◌≤◌, ◌++◌, ◌||◌, ◌&&◌, nat_le, ℕ, [], List, ◌∷◌, map, Some, true, false, length, OnOk, OnErr, IfOk, IsErrOf, ◌↔◌};
ghost use Rattle.std.specs.List.{list_any};
ghost use Rattle.model.specs.Logs.{Step, Output as Put};
ghost use Rattle.model.specs.Logs.Event.{Client};
ghost use Rattle.model.specs.Tapes.{listed};
ghost use Rattle.model.specs.Setup.{Setup};
ghost use Rattle.model.specs.Setup.Passing.{Whole};
ghost use Rattle.model.specs.Rooms.{IsAdmitted};
ghost use Rattle.theory_errors.specs.Rule.{known_of};
ghost use Rattle.upstream_response.specs.Waiting.{passing_in};
ghost use Rattle.effects.specs.Views.{event_of, output_of, outputs_of};
ghost use Rattle.theory_requests.specs.Lines.{find};
ghost use Rattle.upstream_connections.specs.Connections.{number_of};
ghost use Rattle.event_handlers.specs.Admission.{is_up, may_take, room_of as room_for, room_on, admits as admits_kept};
ghost use Rattle.theory.specs.Moves.{Move};
ghost use Rattle.theory.specs.State.{conducts, tape_of};
ghost use Rattle.window_credit.specs.Sides.{queue_of};
ghost use Rattle.refinement.specs.View.{balanced, waiting_for};
ghost use Rattle.refinement.specs.Rest.{Reached};
ghost use Rattle.event_handlers.specs.Resting.{IsSettled};
ghost use Rattle.theory_memory_bound.specs.Held.{IsSmall, held_in as held_in_session};
ghost use Rattle.gateway.specs.Held.{IsHeldWithin, held_in};
ghost use Rattle.gateway.specs.Rooms.{TellsRoom, AreRooms, AreAllIdle, room_in, rooms_in, turns, fails};
ghost use Rattle.gateway.specs.Setups.{setup_of, IsServable};
ghost use Rattle.gateway.specs.Stands.{IsFresh, Serves, Stands, StandsNext, admits, room_of, opened_in, pending_in, is_dead, is_open};
ghost use Rattle.gateway.specs.Receiving.{Receives, ReadsOn, Happens, Greets, KeepsTerms, IsSettledIf, is_begun};

use crate::config::Config;
use crate::phase::Phase;
use crate::preface::{PREFACE, Start, read_preface};
use crate::reading::{Read, completing, take_frames};
use connection_state::{Connection, Terms};
use effects::{Event, Output, Outputs};
use event_handlers::paying::greet;
use event_handlers::{
    Breach, Onward, ServiceTerms, client_took, drain, end, fail, hear, leave, leave_at, up_took,
};
use header_blocks::Encoder;
use local_replies::RoutePattern;
use protocol::limits::{GREATEST_UNTAKEN, LARGEST_EVENT};
use refinement::Session;
use send_queue::Offers;
use std::alloc::{AllocError, Global};
use std::marker::Model;
use std::mem;
use thiserror::Error;
use upstream_connections::Upstreams;
use upstream_response::ResponsePassing;
use window_credit::Marks;

/// How many octets of an upstream may come in one event, where none of its response wait.
const ROOM: usize = LARGEST_EVENT;

/// Why a step is refused.
#[derive(Clone, Copy, PartialEq, Eq, Debug, Drop, Error)]
pub enum Fault {
    /// Memory was refused, and the gateway is closed.
    #[error("memory was refused, and the gateway is closed")]
    Memory,
    /// Memory was refused before.
    #[error("memory was refused before")]
    Closed,
}

/// How many octets of an open connection may come in one event: where its response is passed on as
/// it comes, those of the body that wait for its stream take room, unless it is idle. Its stream is
/// looked for at `guess` first, which then is the place behind it.
fn room_of(
    offers: &Offers,
    connection: &upstream_connections::UpstreamConnection,
    guess: &mut usize,
) -> usize
    ensures { result ≡ room_for offers.now (Some connection.now) }
{
    if connection.is_idle() {
        return ROOM;
    }
    match connection.passing() {
        ResponsePassing::Whole(_) => ROOM,
        ResponsePassing::Streaming => ROOM.saturating_sub(offers.held(connection.stream(), guess)),
    }
}

/// Lists connections behind others, each with its room: most are in the order of their streams.
fn list_open(
    offers: &Offers,
    connections: &[upstream_connections::UpstreamConnection],
    rooms: &mut Vec<(u32, usize)>,
) -> Result<(), AllocError>
    ensures { OnOk result (rooms.new.items ≡ rooms.old.items ++ map (room_in offers.now) connections.now) }
{
    let mut guess = 0;
    for connection in connections {
        let room = room_of(offers, connection, &mut guess);
        rooms.push((connection.number(), room))?;
    }
    Ok(())
}

/// Whether the connection to an upstream fails by an event.
fn is_failure(event: &Event) -> bool
    ensures { result ≡ fails (event_of event.now) }
{
    match event {
        Event::UpFailed(_) => true,
        Event::Client(_)
        | Event::ClientEnd
        | Event::ClientTook(_)
        | Event::Up(_, _)
        | Event::UpEnd(_)
        | Event::UpTook(_, _)
        | Event::Drain => false,
    }
}

/// Whether outputs open a connection to an upstream, or close one.
fn turn_connections(outputs: &[Output]) -> bool
    ensures { result ≡ list_any (λ output. turns (output_of output)) outputs.now }
{
    outputs.iter().any(|output| matches!(output, Output::Open(_, _) | Output::Close(_)))
}

/// Whether a step opens or closes connections to upstreams.
fn changes_connections(event: &Event, outputs: &[Output]) -> bool
    ensures { result ≡ (fails (event_of event.now) || list_any (λ output. turns (output_of output)) outputs.now) }
{
    is_failure(event) || turn_connections(outputs)
}

/// A session in which nothing is kept.
fn new_session(alloc: Global) -> Session
    ensures small { (setup : Setup) → IsSmall setup result }
    ensures nothing { held_in_session result ≡ 0 }
    ensures no_marks { result.marks ≡ [] }
{
    Session {
        inbound: Connection::new(alloc, 0),
        offers: Offers::new(alloc),
        upstreams: Upstreams::new(alloc),
        marks: Marks::new(alloc),
        encoder: Encoder::new(alloc, header_blocks::Policy::Plain),
        untaken: 0,
    }
}

/// A gateway for one connection of a client.
#[derive(Drop)]
pub struct Gateway {
    alloc: Global,
    routes: Vec<RoutePattern>,
    max_body: u64,
    passing: ResponsePassing,
    keep: bool,
    most_idle: u8,
    phase: Phase,
    partial: Vec<u8>,
    session: Session,
    /// How many streams the client had opened when all that is kept was let go of.
    opened: u32,
}

impl Model for Gateway {
    ghost use Rattle.gateway.specs.Stands.{Standing};

    ghost Value = { Standing };

    // Each field is named, so that what one more holds has to be said here.
    ghost view = { λ record {
      alloc = alloc;
      routes = routes;
      max_body = max_body;
      passing = passing;
      keep = keep;
      most_idle = most_idle;
      phase = phase;
      partial = partial;
      session = session;
      opened = opened;
    }. record {
      routes = routes.items;
      max_body = max_body;
      passing = passing;
      keep = keep;
      most_idle = most_idle;
      phase = phase;
      partial = partial.items;
      kept = session;
      opened = opened;
    } };
}

impl Gateway {
    /// A gateway for a new connection of a client, to which nothing came. The maxima are at most
    /// 1,073,741,824, windows have at most 1,048,576 octets, and there are at most 4,294,967,295
    /// routes. An `Err` says that memory was refused.
    pub fn new(alloc: Global, config: &Config) -> Result<Gateway, AllocError>
        requires { IsServable (setup_of config.now) }
        ensures { IfOk result (λ gateway. Stands (setup_of config.now) gateway [] []) }
    {
        let routes = config.copy_routes(alloc)?;
        Ok(Gateway {
            alloc,
            routes,
            max_body: config.max_body,
            passing: config.passing_on(),
            keep: config.keep,
            most_idle: config.idle,
            phase: Phase::New,
            partial: Vec::new(alloc),
            session: Session {
                inbound: Connection::new(alloc, config.more_room()),
                offers: Offers::new(alloc),
                upstreams: Upstreams::new(alloc),
                marks: Marks::new(alloc),
                encoder: Encoder::new(alloc, config.encoding()),
                untaken: 0,
            },
            opened: 0,
        })
    }

    /// How many streams the client opened, whatever became of them (RFC 9113, section 5.1): at most 10,000.
    pub fn opened(&self) -> u32
        ensures { result ≡ opened_in self.now }
    {
        if self.is_open() {
            self.count_streams()
        } else {
            self.opened
        }
    }

    /// How many streams were opened by what is kept.
    fn count_streams(&self) -> u32
        ensures { result ≡ length self.now.kept.inbound.rows }
    {
        self.session.inbound.opened()
    }

    /// Whether the client's connection is open, and memory was never refused.
    fn is_open(&self) -> bool
        ensures { result ≡ is_open self.now.phase }
    {
        match self.phase {
            Phase::New | Phase::Preface | Phase::Frames => true,
            Phase::Closed | Phase::Dead => false,
        }
    }

    /// Whether responses are passed on whole.
    fn passes_whole(&self) -> bool
        ensures { result ≡ true → passing_in self.now.passing ≡ Whole }
    {
        matches!(self.passing, ResponsePassing::Whole(_))
    }

    /// Whether the connection to an upstream is open.
    fn is_up(&self, k: u32) -> bool
        ensures { result ≡ is_up self.now.kept k }
    {
        self.session.upstreams.find(k).is_some()
    }

    /// Whether the connection to an upstream is open, and has room for so many octets.
    fn fits(&self, k: u32, count: usize) -> bool
        ensures { result ≡ (is_up self.now.kept k && nat_le count (room_on self.now.kept k)) }
    {
        match self.session.upstreams.find(k) {
            Some(connection) => count <= self.room_with(connection),
            None => false,
        }
    }

    /// Whether the side of an open upstream may have taken so many octets more.
    fn may_take(&self, k: u32, count: u64) -> bool
        ensures { result ≡ may_take (find number_of k self.now.kept.upstreams.live) count }
    {
        match self.session.upstreams.find(k) {
            Some(connection) => count <= connection.untaken(),
            None => false,
        }
    }

    /// Whether an event may come now: never once the client is closed or memory was refused; octets
    /// of the client at most 65,536 at a time, and while at most 1,073,741,824 octets for it aren't
    /// taken; octets of an upstream, at most as many as it has room for, while its connection is
    /// open; of octets only those as taken that were put out and aren't yet. That the connection is
    /// to be drained may come again.
    pub fn admits(&self, event: &Event) -> bool
        ensures state { result ≡ admits self.now (event_of event.now) }
        // It is what the log tells that the gateway stands for.
        ensures log { (setup : Setup) (log : List Step) (run : List Move) → Stands setup self.now log run
            → (result ≡ true) ↔ IsAdmitted (known_of setup (conducts run)) (tape_of run) (event_of event.now) }
    {
        self.is_open() && self.may_come(event)
    }

    /// Whether an event may come while the connection is open.
    fn may_come(&self, event: &Event) -> bool
        ensures { result ≡ admits_kept self.now.kept (event_of event.now) }
    {
        match event {
            Event::Client(piece) => {
                piece.len() <= LARGEST_EVENT && self.session.untaken <= GREATEST_UNTAKEN
            }
            Event::ClientEnd => true,
            Event::ClientTook(count) => *count <= self.session.untaken,
            Event::Up(k, piece) => self.fits(*k, piece.len()),
            Event::UpEnd(k) | Event::UpFailed(k) => self.is_up(*k),
            Event::UpTook(k, count) => self.may_take(*k, *count),
            Event::Drain => true,
        }
    }

    /// How many octets of an upstream may come in one event while its connection is open: 65,536,
    /// and where responses are passed on as they come fewer by those of its body that weren't sent
    /// to the client yet, unless it is idle. Else none, and none once memory was refused.
    pub fn room(&self, k: u32) -> usize
        ensures state { result ≡ room_of self.now k }
        // It is what the log tells that the gateway stands for.
        ensures log { (setup : Setup) (log : List Step) (run : List Move) → Stands setup self.now log run
            → TellsRoom (known_of setup (conducts run)) (tape_of run) k result }
    {
        if self.is_open() { self.room_on(k) } else { 0 }
    }

    /// How many may while the client's connection is open.
    fn room_on(&self, k: u32) -> usize
        ensures { result ≡ room_on self.now.kept k }
    {
        match self.session.upstreams.find(k) {
            Some(connection) => self.room_with(connection),
            None => 0,
        }
    }

    /// How many of an open connection may.
    fn room_with(&self, connection: &upstream_connections::UpstreamConnection) -> usize
        ensures { result ≡ room_for self.now.kept.offers (Some connection.now) }
    {
        let mut guess = 0;
        room_of(&self.session.offers, connection, &mut guess)
    }

    /// Lists the open connections to upstreams in `rooms`, in place of what it has, by rising
    /// number, each with how many octets of it may come in one event: none once memory was refused.
    /// An `Err` says that memory for the list was refused.
    pub fn list_rooms(&self, rooms: &mut Vec<(u32, usize)>) -> Result<(), AllocError>
        ensures state { OnOk result (rooms.new.items ≡ rooms_in self.now) }
        // They are those that the log tells that the gateway stands for.
        ensures log { OnOk result ((setup : Setup) (log : List Step) (run : List Move) → Stands setup self.now log run
            → AreRooms (known_of setup (conducts run)) (tape_of run) rooms.new.items) }
    {
        rooms.clear();
        if !self.is_open() {
            return Ok(());
        }
        list_open(
            &self.session.offers,
            self.session.upstreams.connections(),
            rooms,
        )
    }

    /// Brings the rooms of the open connections, as `list_rooms` told them before a step, to what
    /// it tells behind it: `outputs` is all that the step put out for its event. Where responses
    /// are passed on whole they are listed anew only if that opened or closed a connection. An
    /// `Err` says that memory for the list was refused.
    pub fn update_rooms(
        &self,
        event: &Event,
        outputs: &[Output],
        rooms: &mut Vec<(u32, usize)>,
    ) -> Result<(), AllocError>
        ensures { OnOk result ((setup : Setup) (log : List Step) (run : List Move)
            (next : StandsNext setup self.now log run (event_of event.now) (outputs_of outputs.now))
            → AreRooms (known_of setup (conducts run)) (tape_of run) rooms.old.items
            → AreRooms (known_of setup (conducts (next.segment ++ run))) (tape_of (next.segment ++ run)) rooms.new.items) }
    {
        if self.passes_whole() && !changes_connections(event, outputs) {
            return Ok(());
        }
        self.list_rooms(rooms)
    }

    /// The numbers of the connections to upstreams that are idle: none once the client is closed, or
    /// memory was refused.
    pub fn idle(&self) -> &[u32]
        // They are those that the log tells that the gateway stands for.
        ensures { (setup : Setup) (log : List Step) (run : List Move) → Stands setup self.now log run
            → AreAllIdle (known_of setup (conducts run)) (tape_of run) result.now }
    {
        if !self.is_open() {
            return &[];
        }
        self.session.upstreams.idle()
    }

    /// Takes an event that may come, and puts out at the end of `out` all that it causes. A refused
    /// step puts out nothing, and after a refusal for want of memory every step answers `Closed`.
    pub fn step(&mut self, event: &Event, out: &mut Vec<Output>) -> Result<(), Fault>
        requires admitted { is_dead self.old.phase ≡ false → admits self.old (event_of event.now) ≡ true }
        requires stands { is_dead self.old.phase ≡ false → (setup : Setup) × (log : List Step) × (run : List Move) × Stands setup self.old log run }
        // For whatever log the gateway stood, it stands afterwards for the same with this step behind it.
        ensures stands { OnOk result ((outputs : List Put) × (outputs_of out.new.items ≡ outputs_of out.old.items ++ outputs)
            × ((setup : Setup) (log : List Step) (run : List Move) → Stands setup self.old log run
            → StandsNext setup self.new log run (event_of event.now) outputs)) }
        ensures nothing { OnErr result (out.new.items ≡ out.old.items) }
        ensures alive { OnOk result (is_dead self.new.phase ≡ false) }
        ensures dead { OnErr result (is_dead self.new.phase ≡ true) }
        ensures closed { IsErrOf result Fault.Closed ↔ (is_dead self.old.phase ≡ true) }
        // What it holds of octets behind a step, answered or refused, stays below its bound, and
        // what it holds for each stream below a part of that; and of no stream it has more marks of
        // DATA that waits than receiving windows have octets at first.
        ensures held { (setup : Setup) (log : List Step) (run : List Move) → Stands setup self.old log run → IsHeldWithin setup self.new }
        // Once it is closed, or memory was refused, it holds none.
        ensures lets_go { is_dead self.old.phase ≡ false → is_open self.new.phase ≡ false → held_in self.new ≡ 0 }
        ensures stays { is_dead self.old.phase ≡ true → self.new ≡ self.old }
    {
        if matches!(self.phase, Phase::Dead) {
            return Err(Fault::Closed);
        }
        match self.try_step(event, out) {
            Ok(()) => {
                self.let_go_if_over();
                Ok(())
            }
            Err(_) => {
                self.phase = Phase::Dead;
                self.let_go();
                Err(Fault::Memory)
            }
        }
    }

    /// Lets go of all that is kept.
    fn let_go(&mut self)
        ensures stays { self.new ≡ record self.old { partial = []; kept = self.new.kept; opened = length self.old.kept.inbound.rows } }
        ensures small { (setup : Setup) → IsSmall setup self.new.kept }
        ensures nothing { held_in_session self.new.kept ≡ 0 }
        ensures no_marks { self.new.kept.marks ≡ [] }
    {
        self.opened = self.count_streams();
        self.partial = Vec::new(self.alloc);
        self.session = new_session(self.alloc);
    }

    /// A law of what is kept, which takes no step: no stream has more marks than octets of its DATA that wait.
    fn has_few_marks(&self)
        ensures { (stream : ℕ) → length (queue_of stream self.now.kept.marks) ≤ waiting_for stream self.now.kept }
    {
        self.session.marks.are_few();
    }

    /// Lets go of all that is kept where the client is closed.
    fn let_go_if_over(&mut self)
        ensures phase { self.new.phase ≡ self.old.phase }
        ensures stands { (setup : Setup) (log : List Step) (run : List Move) → Stands setup self.old log run → Stands setup self.new log run }
        ensures held { (setup : Setup) (step : Step) (log : List Step) (run : List Move) → Stands setup self.old (step ∷ log) run
            → IsHeldWithin setup self.new }
        ensures nothing { is_open self.old.phase ≡ false → is_dead self.old.phase ≡ false → held_in self.new ≡ 0 }
    {
        if matches!(self.phase, Phase::Closed) {
            self.let_go();
        } else {
            self.has_few_marks();
        }
    }

    /// What a step does where memory suffices.
    fn try_step(&mut self, event: &Event, out: &mut Vec<Output>) -> Result<(), AllocError>
        requires admitted { admits self.old (event_of event.now) ≡ true }
        requires stands { (setup : Setup) × (log : List Step) × (run : List Move) × Stands setup self.old log run }
        ensures steps { OnOk result ((outputs : List Put) × (outputs_of out.new.items ≡ outputs_of out.old.items ++ outputs)
            × ((setup : Setup) (log : List Step) (run : List Move) → Stands setup self.old log run
            → StandsNext setup self.new log run (event_of event.now) outputs)) }
        ensures nothing { OnErr result (out.new.items ≡ out.old.items) }
        ensures alive { OnOk result (is_dead self.new.phase ≡ false) }
    {
        let mut outputs = Outputs::new(self.alloc);
        self.greet(&mut outputs)?;
        let went = self.happen(event, &mut outputs)?;
        if matches!(went, Onward::Over) {
            self.phase = Phase::Closed;
        }
        outputs.append_to(out)
    }

    /// Sends the gateway's settings, unless they were sent (RFC 9113, section 3.4).
    fn greet(&mut self, out: &mut Outputs) -> Result<(), AllocError>
        requires settled { IsSettled self.old.kept }
        requires fresh { IsFresh self.old.phase self.old.kept }
        requires reached { (setup : Setup) × Reached setup self.old.kept (pending_in setup.more_room self.old.phase) }
        requires nothing { out.old ≡ [] }
        ensures { OnOk result (Greets self.old self.new out.new) }
    {
        if matches!(self.phase, Phase::New) {
            greet(&mut self.session, out)?;
            self.phase = Phase::Preface;
        }
        Ok(())
    }

    /// What an event does, once the gateway's settings are sent.
    fn happen(&mut self, event: &Event, out: &mut Outputs) -> Result<Onward, AllocError>
        requires admitted { listed (event_of event.now) ≡ event_of event.now ∷ [] → admits_kept self.old.kept (event_of event.now) ≡ true }
        requires settled { IsSettled self.old.kept }
        requires reached { (setup : Setup) × Serves setup self.old × Reached setup self.old.kept balanced }
        ensures happens { IfOk result (λ went. Happens self.old self.new went out.old out.new (event_of event.now)) }
        ensures terms { IfOk result (λ went. KeepsTerms self.old self.new) }
        ensures rests { IfOk result (λ went. IsSettledIf went self.new.kept) }
    {
        let alloc = self.alloc;
        let keep = self.keep;
        let most_idle = self.most_idle;
        let session = &mut self.session;
        match event {
            Event::Client(piece) => self.take_piece(piece, out),
            Event::ClientEnd => {
                leave(session, out)?;
                Ok(Onward::Over)
            }
            Event::ClientTook(count) => client_took(alloc, session, *count, out),
            Event::Up(k, octets) => hear(alloc, session, *k, octets, keep, most_idle, out),
            Event::UpEnd(k) => end(alloc, session, *k, out),
            Event::UpFailed(k) => fail(alloc, session, *k, out),
            Event::UpTook(k, count) => up_took(alloc, session, *k, *count, out),
            Event::Drain => drain(alloc, session, out),
        }
    }

    /// Whether octets wait that are part of a frame: then the preface was read.
    fn has_part_of_frame(&self) -> bool
        ensures { result ≡ true → is_begun self.now.phase ≡ true }
    {
        matches!(self.phase, Phase::Frames) && !self.partial.is_empty()
    }

    /// Takes octets of the client, behind those that weren't read yet. Only what completes a frame
    /// is copied there; the rest is read where it lies.
    fn take_piece(&mut self, piece: &[u8], out: &mut Outputs) -> Result<Onward, AllocError>
        requires settled { IsSettled self.old.kept }
        requires reached { (setup : Setup) × Serves setup self.old × Reached setup self.old.kept balanced }
        ensures receives { IfOk result (λ went. Receives self.old self.new went out.old out.new (self.old.partial ++ piece.now)) }
        ensures terms { IfOk result (λ went. KeepsTerms self.old self.new) }
        ensures rests { IfOk result (λ went. IsSettledIf went self.new.kept) }
    {
        let (front, rest) = piece.split_at(completing(&self.partial, piece));
        if rest.is_empty() || !self.has_part_of_frame() {
            return self.take_behind(piece, out);
        }
        match self.take_behind(front, out)? {
            Onward::On => self.take_behind(rest, out),
            Onward::Over => Ok(Onward::Over),
        }
    }

    /// Takes octets of the client, copied behind those that weren't read yet, if there are any.
    fn take_behind(&mut self, piece: &[u8], out: &mut Outputs) -> Result<Onward, AllocError>
        requires settled { IsSettled self.old.kept }
        requires reached { (setup : Setup) × Serves setup self.old × Reached setup self.old.kept balanced }
        ensures receives { IfOk result (λ went. Receives self.old self.new went out.old out.new (self.old.partial ++ piece.now)) }
        ensures terms { IfOk result (λ went. KeepsTerms self.old self.new) }
        ensures rests { IfOk result (λ went. IsSettledIf went self.new.kept) }
    {
        if self.partial.is_empty() {
            return self.read(piece, out);
        }
        let mut text = mem::replace(&mut self.partial, Vec::new(self.alloc));
        text.extend_from_slice(piece)?;
        self.read(&text, out)
    }

    /// Reads octets of the client, where none wait: the preface, if it wasn't read, and then
    /// frames. What is left of them waits.
    fn read(&mut self, text: &[u8], out: &mut Outputs) -> Result<Onward, AllocError>
        requires none_wait { self.old.partial ≡ [] }
        requires settled { IsSettled self.old.kept }
        requires reached { (setup : Setup) × Serves setup self.old × Reached setup self.old.kept balanced }
        ensures receives { IfOk result (λ went. Receives self.old self.new went out.old out.new text.now) }
        ensures terms { IfOk result (λ went. KeepsTerms self.old self.new) }
        ensures rests { IfOk result (λ went. IsSettledIf went self.new.kept) }
    {
        if matches!(self.phase, Phase::Frames) {
            return self.read_frames(text, out);
        }
        match read_preface(text) {
            Start::Whole => self.read_frames(&text[PREFACE.len()..], out),
            Start::Part => {
                self.partial.extend_from_slice(text)?;
                Ok(Onward::On)
            }
            Start::Wrong => {
                leave_at(&mut self.session, Breach::WrongPreface, out)?;
                Ok(Onward::Over)
            }
        }
    }

    /// Reads octets behind the preface, where none wait. What is left of them waits.
    fn read_frames(&mut self, text: &[u8], out: &mut Outputs) -> Result<Onward, AllocError>
        requires none_wait { self.old.partial ≡ [] }
        requires settled { IsSettled self.old.kept }
        requires reached { (setup : Setup) × Serves setup self.old × Reached setup self.old.kept balanced }
        ensures reads { IfOk result (λ went. ReadsOn self.old self.new went out.old out.new text.now) }
        ensures terms { IfOk result (λ went. KeepsTerms self.old self.new) }
        ensures rests { IfOk result (λ went. IsSettledIf went self.new.kept) }
    {
        let terms = Terms {
            routes: &self.routes,
            max_body: self.max_body,
        };
        let service = ServiceTerms {
            terms,
            passing: self.passing,
            keep: self.keep,
        };
        self.phase = Phase::Frames;
        match take_frames(self.alloc, &mut self.session, text, service, out)? {
            Read::Rest(used) => {
                self.partial.extend_from_slice(&text[used..])?;
                Ok(Onward::On)
            }
            Read::Over => Ok(Onward::Over),
        }
    }
}
