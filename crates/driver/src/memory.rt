//! A world in memory.

ghost use Rattle.std.specs.Prelude.{◌≡◌, ◌+◌, ◌<◌, ◌≤◌, ◌^◌, ◌⊎◌, ◌∷◌, ◌++◌, [], List, Some, true, false, map, length, is_ok, IfOk, OnOk, OnErr, if◌then◌else◌};
ghost use Rattle.std.specs.Prelude.{vec_len, vec_capacity};
ghost use Rattle.model.specs.Logs.{Step};
ghost use Rattle.effects.specs.Views.{event_of, output_of};
ghost use Rattle.driver.specs.Memory.{steps_of, log_in, handed_in, left_in, Gives, MovesOn, is_due, one_fewer};
ghost use Rattle.driver.specs.Memory.{octets_in, octets_put, first_octets, IsLastFull, NeedsMemory, NeedsMemoryFor};
ghost use Rattle.driver.specs.Worlds.{AddsEvent, AddsHanded, KeepsRooms, SaysOver, with_outputs};
ghost use Rattle.driver.specs.Calls.{HearsIdleFirst};
ghost use Rattle.driver.specs.Calls.Call.{Asked, Applied};

use crate::world::{Next, World, WorldFault};
use effects::{Event, Output, Text};
use std::alloc::{AllocError, Global};

/// How many steps a log had, the rooms of the open connections, and those that are idle.
pub type HandedCall = (usize, Vec<(u32, usize)>, Vec<u32>);

/// A world that gives a list of events in order, each as soon as it is asked, and keeps its log.
#[derive(Drop)]
pub struct MemoryWorld {
    alloc: Global,
    events: Vec<Event>,
    /// How many of the events were given.
    given: usize,
    log: Vec<(Event, Vec<Output>)>,
    /// For each call of `next` that didn't fail how many steps the log had, and what it was handed.
    handed: Vec<HandedCall>,
    over: bool,
    /// How many calls come before the one that fails, if one will.
    fails_in: Option<u64>,
    calls: u64,
    failures: u64,
}

impl MemoryWorld {
    /// A world that gives these events, and then says that nothing comes any more. Its call with
    /// this number, from 0, those of `next` and of `apply` counted together, fails.
    pub fn new(alloc: Global, events: Vec<Event>, fail_at: Option<u64>) -> MemoryWorld
        ensures left { left_in result ≡ map event_of events.items }
        ensures log { (log_in result ≡ []) × (handed_in result ≡ []) }
        ensures over { result.over ≡ false }
        ensures fails { result.fails_in ≡ fail_at }
        ensures counts { (result.calls ≡ 0) × (result.failures ≡ 0) }
    {
        MemoryWorld {
            alloc,
            events,
            given: 0,
            log: Vec::new(alloc),
            handed: Vec::new(alloc),
            over: false,
            fails_in: fail_at,
            calls: 0,
            failures: 0,
        }
    }

    /// The events that were given, each with what was put out for it, the oldest first.
    pub fn log(&self) -> &[(Event, Vec<Output>)]
        ensures { result.now ≡ self.now.log.items }
    {
        &self.log
    }

    /// For each call of `next` that didn't fail how many steps the log had, and the rooms and the
    /// idle connections that it was handed, the first one first.
    pub fn handed(&self) -> &[HandedCall]
        ensures { result.now ≡ self.now.handed.items }
    {
        &self.handed
    }

    /// Keeps what it is handed, and gives the next event. Where memory is refused nothing changes.
    fn take_call(&mut self, rooms: &[(u32, usize)], idle: &[u32]) -> Result<Next, AllocError>
        ensures gives { IfOk result (λ next. Gives (left_in self.old) next (left_in self.new)) }
        ensures log { IfOk result (λ next. AddsEvent (Some (log_in self.old)) next (Some (log_in self.new))) }
        ensures handed { OnOk result (AddsHanded (Some (log_in self.old)) (Some (handed_in self.old)) rooms.now idle.now (Some (handed_in self.new))) }
        ensures over { IfOk result (λ next. SaysOver next self.new.over) }
        ensures err { OnErr result ((left_in self.new ≡ left_in self.old) × (log_in self.new ≡ log_in self.old) × (handed_in self.new ≡ handed_in self.old)) }
        ensures full { OnErr result (NeedsMemory self.old rooms.now idle.now) }
        ensures counts { (self.new.calls ≡ self.old.calls) × (self.new.failures ≡ self.old.failures) × (self.new.fails_in ≡ self.old.fails_in) }
    {
        let steps = self.log.len();
        let rooms = copied(self.alloc, rooms)?;
        let idle = copied(self.alloc, idle)?;
        self.handed.push((steps, rooms, idle))?;
        let next = self.give();
        if next.is_err() {
            let _rooms = self.handed.pop();
        }
        next
    }

    /// Gives the next event. Where memory is refused nothing changes.
    fn give(&mut self) -> Result<Next, AllocError>
        ensures gives { IfOk result (λ next. Gives (left_in self.old) next (left_in self.new)) }
        ensures log { IfOk result (λ next. AddsEvent (Some (log_in self.old)) next (Some (log_in self.new))) }
        ensures over { IfOk result (λ next. SaysOver next self.new.over) }
        ensures err { OnErr result ((left_in self.new ≡ left_in self.old) × (log_in self.new ≡ log_in self.old)) }
        ensures full { OnErr result ((0 < length (first_octets (left_in self.old))) ⊎ (vec_capacity self.old.log ≤ vec_len self.old.log)) }
        ensures counts { (self.new.calls ≡ self.old.calls) × (self.new.failures ≡ self.old.failures) × (self.new.fails_in ≡ self.old.fails_in) }
        ensures handed { self.new.handed ≡ self.old.handed }
    {
        let Some(event) = self.events.get(self.given) else {
            self.over = true;
            return Ok(Next::Over);
        };
        let event = copy_event(self.alloc, event)?;
        let logged = copy_event(self.alloc, &event)?;
        self.log.push((logged, Vec::new(self.alloc)))?;
        self.given += 1;
        self.over = false;
        Ok(Next::Happened(event))
    }
}

/// Counts a call. The answer is whether it fails.
fn is_failure(fails_in: &mut Option<u64>) -> bool
    ensures due { result ≡ is_due fails_in.old }
    ensures fewer { fails_in.new ≡ one_fewer fails_in.old }
{
    match *fails_in {
        None => false,
        Some(0) => {
            *fails_in = None;
            true
        }
        Some(more) => {
            *fails_in = Some(more - 1);
            false
        }
    }
}

/// Some values once more; of none no memory is taken.
fn copied<T: Copy>(alloc: Global, items: &[T]) -> Result<Vec<T>, AllocError>
    ensures items { IfOk result (λ copy. copy.items ≡ items.now) }
    ensures full { OnErr result (0 < length items.now) }
{
    let mut copy = Vec::new(alloc);
    copy.extend_from_slice(items)?;
    Ok(copy)
}

/// An event once more.
fn copy_event(alloc: Global, event: &Event) -> Result<Event, AllocError>
    ensures is { IfOk result (λ copy. event_of copy ≡ event_of event.now) }
    ensures full { OnErr result (0 < length (octets_in (event_of event.now))) }
{
    Ok(match event {
        Event::Client(piece) => Event::Client(copied(alloc, piece)?),
        Event::ClientEnd => Event::ClientEnd,
        Event::ClientTook(count) => Event::ClientTook(*count),
        Event::Up(k, piece) => Event::Up(*k, copied(alloc, piece)?),
        Event::UpEnd(k) => Event::UpEnd(*k),
        Event::UpFailed(k) => Event::UpFailed(*k),
        Event::UpTook(k, count) => Event::UpTook(*k, *count),
        Event::Drain => Event::Drain,
    })
}

/// A text once more.
fn copy_text(alloc: Global, text: &Text) -> Result<Text, AllocError>
    ensures is { IfOk result (λ copy. copy ≡ text.now) }
    ensures full { OnErr result (0 < length text.now) }
{
    Ok(Text::from_octets(copied(alloc, text.as_slice())?))
}

/// An output once more.
fn copy_output(alloc: Global, output: &Output) -> Result<Output, AllocError>
    ensures is { IfOk result (λ copy. output_of copy ≡ output_of output.now) }
    ensures full { OnErr result (0 < length (octets_put (output_of output.now))) }
{
    Ok(match output {
        Output::Client(octets) => Output::Client(copied(alloc, octets)?),
        Output::Open(k, route) => Output::Open(*k, *route),
        Output::Up(k, octets) => Output::Up(*k, copy_text(alloc, octets)?),
        Output::Close(k) => Output::Close(*k),
        Output::CloseClient => Output::CloseClient,
    })
}

/// Puts an output behind those of the last step. That there is no step is a failure.
fn add_output(
    alloc: Global,
    log: &mut [(Event, Vec<Output>)],
    output: &Output,
) -> Result<(), WorldFault>
    ensures log { OnOk result ((before : List Step) (step : Step) → steps_of log.old ≡ before ++ step ∷ []
        → steps_of log.new ≡ before ++ with_outputs step (output_of output.now ∷ []) ∷ []) }
    ensures err { OnErr result (steps_of log.new ≡ steps_of log.old) }
    ensures full { OnErr result (NeedsMemoryFor (output_of output.now) log.old) }
{
    let Some(last) = log.len().checked_sub(1) else {
        return Err(WorldFault {});
    };
    let copied = copy_output(alloc, output)?;
    log[last].1.push(copied)?;
    Ok(())
}

impl World for MemoryWorld {
    ghost use Rattle.std.specs.Prelude.{Some, false};
    ghost use Rattle.driver.specs.Memory.{log_in, handed_in, MovesOn};

    ghost calls = { λ world. world.calls };

    ghost failures = { λ world. world.failures };

    ghost over = { λ world. world.over };

    ghost log = { λ world. Some (log_in world) };

    ghost handed = { λ world. Some (handed_in world) };

    // It gives what it was made with.
    ghost keeps_rooms = { λ _. false };

    ghost moves = { MovesOn };

    ghost hears_idle_first = { λ _. ⊥ };

    ghost could_read = { λ _ _. false };

    ghost looks = { λ _. 0 };

    ghost heard_at = { λ _. 0 };

    fn next(&mut self, rooms: &[(u32, usize)], idle: &[u32]) -> Result<Next, WorldFault>
        requires calls { self.old.calls + 1 < 2 ^ 64 }
        requires failures { self.old.failures + 1 < 2 ^ 64 }
        ensures calls { self.new.calls ≡ self.old.calls + 1 }
        ensures failures { self.new.failures ≡ (if is_ok result then self.old.failures else self.old.failures + 1) }
        ensures over { IfOk result (λ next. SaysOver next self.new.over) }
        ensures log { IfOk result (λ next. AddsEvent (Some (log_in self.old)) next (Some (log_in self.new))) }
        ensures handed { OnOk result (AddsHanded (Some (log_in self.old)) (Some (handed_in self.old)) rooms.now idle.now (Some (handed_in self.new))) }
        ensures err { OnErr result ((log_in self.new ≡ log_in self.old) × (handed_in self.new ≡ handed_in self.old)) }
        ensures rooms { false ≡ true → IfOk result (λ next. KeepsRooms rooms.now next) }
        ensures keeps_rooms { false ≡ false }
        ensures moves { MovesOn self.old (Asked rooms.now idle.now result) self.new }
        ensures idle_first { ⊥ → IfOk result (λ next. HearsIdleFirst idle.now next (λ _. false) 0 0 0) }
        ensures hears_on { OnOk result (⊥ → ⊥) }
        // The events come in order, and none is lost where a call fails.
        ensures gives { IfOk result (λ next. Gives (left_in self.old) next (left_in self.new)) }
        ensures kept { OnErr result (left_in self.new ≡ left_in self.old) }
        // The call that is to fail does, and no other than that for want of memory, where it needs some.
        ensures due { OnOk result (is_due self.old.fails_in ≡ false) }
        ensures full { OnErr result ((is_due self.old.fails_in ≡ true) ⊎ NeedsMemory self.old rooms.now idle.now) }
        ensures fewer { self.new.fails_in ≡ one_fewer self.old.fails_in }
    {
        self.calls += 1;
        if is_failure(&mut self.fails_in) {
            self.failures += 1;
            return Err(WorldFault {});
        }
        match self.take_call(rooms, idle) {
            Ok(next) => Ok(next),
            Err(_) => {
                self.failures += 1;
                Err(WorldFault {})
            }
        }
    }

    fn apply(&mut self, output: &Output) -> Result<(), WorldFault>
        requires { self.old.failures + 1 < 2 ^ 64 }
        ensures calls { self.new.calls ≡ self.old.calls }
        ensures failures { self.new.failures ≡ (if is_ok result then self.old.failures else self.old.failures + 1) }
        ensures log { OnOk result ((before : List Step) (step : Step) → log_in self.old ≡ before ++ step ∷ []
            → log_in self.new ≡ before ++ with_outputs step (output_of output.now ∷ []) ∷ []) }
        ensures err { OnErr result (log_in self.new ≡ log_in self.old) }
        ensures handed { handed_in self.new ≡ handed_in self.old }
        ensures over { self.new.over ≡ self.old.over }
        ensures keeps_rooms { false ≡ false }
        ensures moves { MovesOn self.old (Applied output.now result) self.new }
        ensures hears_on { OnOk result (⊥ → ⊥) }
        ensures kept { left_in self.new ≡ left_in self.old }
        ensures due { OnOk result (is_due self.old.fails_in ≡ false) }
        ensures full { OnErr result ((is_due self.old.fails_in ≡ true) ⊎ NeedsMemoryFor (output_of output.now) self.old.log.items) }
        ensures fewer { self.new.fails_in ≡ one_fewer self.old.fails_in }
    {
        if is_failure(&mut self.fails_in) {
            self.failures += 1;
            return Err(WorldFault {});
        }
        let added = add_output(self.alloc, &mut self.log, output);
        if added.is_err() {
            self.failures += 1;
        }
        added
    }
}
