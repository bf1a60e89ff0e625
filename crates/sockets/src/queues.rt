//! The queues of upstreams of which something may be read, and of those that may have taken octets.

ghost use Rattle.std.specs.Prelude.{◌≡◌, ◌<◌, ◌∷◌, ℕ, List, Option, Some, Ok, true, false, length, IfSome, IfNone, OnOk, get_or};
ghost use Rattle.sockets.specs.Performed.{AreRising, IsOpenNowhere, AllGoOn};
ghost use Rattle.sockets.specs.Noting.{NotesOne};
ghost use Rattle.sockets.specs.Queues.{Grows, StandsIn, IsMarked, IsListed, AllListed, is_clients_turn};
ghost use Rattle.sockets.specs.Sides.{no_news, may_be_ready, owes};
ghost use Rattle.std.specs.List.{Contains};

use crate::reporting::number_in;
use crate::upstream::Upstream;
use crate::wire::Wire;
use driver::WorldFault;
use mio::event::Event as Report;
use mio::{Events, Registry};
use std::collections::VecDeque;
use std::time::{Duration, Instant};

/// The client's number among the sockets. Connections to upstreams count from 1.
pub(crate) const CLIENT: u32 = 0;

/// Takes the number of the socket that is read next, if there is one: where it is the client's turn
/// the first of those behind it that is an idle connection, and else the one in front.
pub(crate) fn take_next(ready: &mut VecDeque<u32>, idle: &[u32]) -> Option<u32>
    ensures stand { IfSome result (λ number. StandsIn ready.old.items (number ∷ ready.new.items)) }
    ensures none { IfNone result (ready.new.items ≡ ready.old.items) }
    ensures first { result ≡ Some 0 → (k : ℕ) → 0 < k → Contains idle.now k → Contains ready.new.items k → ⊥ }
{
    if !is_clients_turn(ready) {
        return ready.pop_front();
    }
    match idle_among(ready, idle) {
        Some(place) => ready.remove(place),
        None => ready.pop_front(),
    }
}

/// Whether the client stands in front.
fn is_clients_turn(ready: &VecDeque<u32>) -> bool
    ensures { result ≡ is_clients_turn ready.now.items }
{
    match ready.front() {
        Some(number) => *number == CLIENT,
        None => false,
    }
}

/// The place of the first idle connection among these.
fn idle_among(ready: &VecDeque<u32>, idle: &[u32]) -> Option<usize>
    ensures some { IfSome result (λ place. (place < length ready.now.items) × (0 < get_or ready.now.items place 0)) }
    ensures none { IfNone result ((k : ℕ) → 0 < k → Contains idle.now k → Contains ready.now.items k → ⊥) }
{
    if idle.is_empty() {
        return None;
    }
    for place in 0..ready.len() {
        if is_among(ready[place], idle) {
            return Some(place);
        }
    }
    None
}

/// Whether this number is that of a connection among these.
fn is_among(number: u32, idle: &[u32]) -> bool
    ensures yes { result ≡ true → 0 < number }
    ensures no { result ≡ false → 0 < number → Contains idle.now number → ⊥ }
{
    number != CLIENT && idle.contains(&number)
}

/// The place of a connection.
pub(crate) fn place_of<S>(k: u32, upstreams: &[Upstream<S>]) -> Option<usize>
    ensures within { IfSome result (λ place. place < length upstreams.now) }
    ensures found { IfSome result (λ place. (other : Upstream S) → (get_or upstreams.now place other).k ≡ k) }
    ensures absent { IfNone result (AreRising upstreams.now → IsOpenNowhere k upstreams.now) }
{
    upstreams
        .binary_search_by_key(&k, |upstream| upstream.k)
        .ok()
}

/// Notes what was reported of upstreams, and writes what waits for those that take octets again.
pub(crate) fn heed_all<S: Wire>(
    reports: &Events,
    registry: &Registry,
    upstreams: &mut Vec<Upstream<S>>,
    ready: &mut VecDeque<u32>,
    writes: &mut VecDeque<u32>,
) -> Result<(), WorldFault>
    ensures goes { AllGoOn S.left S.held no_news upstreams.old.items upstreams.new.items }
    ensures ready { Grows ready.old.items ready.new.items }
    ensures listed { OnOk result (AllListed 0 ready.old.items writes.old.items upstreams.old.items
        → AllListed 0 ready.new.items writes.new.items upstreams.new.items) }
{
    for report in reports {
        heed(report, registry, upstreams, ready, writes)?;
    }
    Ok(())
}

/// Notes what was reported of an upstream, if it is open, and writes what waits for it, if it takes
/// octets again.
pub(crate) fn heed<S: Wire>(
    report: &Report,
    registry: &Registry,
    upstreams: &mut Vec<Upstream<S>>,
    ready: &mut VecDeque<u32>,
    writes: &mut VecDeque<u32>,
) -> Result<(), WorldFault>
    ensures goes { AllGoOn S.left S.held no_news upstreams.old.items upstreams.new.items }
    ensures noted { AreRising upstreams.old.items → NotesOne report.now upstreams.old.items upstreams.new.items }
    ensures ready { Grows ready.old.items ready.new.items }
    ensures listed { OnOk result (AllListed 0 ready.old.items writes.old.items upstreams.old.items
        → AllListed 0 ready.new.items writes.new.items upstreams.new.items) }
{
    let Some(place) = place_of(number_in(report.token()), upstreams) else {
        return Ok(());
    };
    let upstream = &mut upstreams[place];
    upstream.heed(report, registry);
    list(upstream, ready, writes)
}

/// Notes of those upstreams that are idle now that they are, and ends those that were for so long.
pub(crate) fn note_idle_all<S: Wire>(
    idle: &[u32],
    now: Instant,
    most: Duration,
    upstreams: &mut Vec<Upstream<S>>,
)
    ensures goes { AllGoOn S.left S.held no_news upstreams.old.items upstreams.new.items }
    ensures listed { (ready writes : List ℕ) → AllListed 0 ready writes upstreams.old.items → AllListed 0 ready writes upstreams.new.items }
{
    for number in idle {
        note_idle(*number, now, most, upstreams);
    }
}

/// Notes of an upstream, if it is open, that it is idle now, and ends it if it was for so long.
fn note_idle<S: Wire>(number: u32, now: Instant, most: Duration, upstreams: &mut Vec<Upstream<S>>)
    ensures goes { AllGoOn S.left S.held no_news upstreams.old.items upstreams.new.items }
    ensures listed { (ready writes : List ℕ) → AllListed 0 ready writes upstreams.old.items → AllListed 0 ready writes upstreams.new.items }
{
    if let Some(place) = place_of(number, upstreams) {
        let upstream = &mut upstreams[place];
        upstream.note_idle(now, most);
    }
}

/// An upstream is waited for no longer: it counts as failed, if it is open, unless something may be
/// read of it. The answer is whether it does by now.
pub(crate) fn give_up<S: Wire>(
    number: u32,
    upstreams: &mut Vec<Upstream<S>>,
    ready: &mut VecDeque<u32>,
    writes: &mut VecDeque<u32>,
) -> Result<bool, WorldFault>
    ensures goes { AllGoOn S.left S.held no_news upstreams.old.items upstreams.new.items }
    ensures ready { Grows ready.old.items ready.new.items }
    ensures listed { OnOk result (AllListed 0 ready.old.items writes.old.items upstreams.old.items
        → AllListed 0 ready.new.items writes.new.items upstreams.new.items) }
{
    let Some(place) = place_of(number, upstreams) else {
        return Ok(false);
    };
    let upstream = &mut upstreams[place];
    let has_failed = upstream.give_up();
    list(upstream, ready, writes)?;
    Ok(has_failed)
}

/// Lists an upstream where it belongs by now: among those of which something may be read, and among
/// those that may have taken octets.
pub(crate) fn list<S: Wire>(
    upstream: &mut Upstream<S>,
    ready: &mut VecDeque<u32>,
    writes: &mut VecDeque<u32>,
) -> Result<(), WorldFault>
    ensures stays { upstream.new ≡ record upstream.old { is_queued = upstream.new.is_queued; is_listed = upstream.new.is_listed } }
    ensures ready { Grows ready.old.items ready.new.items }
    ensures writes { Grows writes.old.items writes.new.items }
    ensures listed { OnOk result (IsMarked ready.old.items writes.old.items upstream.old → IsListed ready.new.items writes.new.items upstream.new) }
{
    join_ready(upstream, ready)?;
    join_writes(upstream, writes)
}

/// An upstream joins those of which something may be read, if something may, and it doesn't stand
/// among them.
pub(crate) fn join_ready<S: Wire>(
    upstream: &mut Upstream<S>,
    ready: &mut VecDeque<u32>,
) -> Result<(), WorldFault>
    ensures stays { upstream.new ≡ record upstream.old { is_queued = upstream.new.is_queued } }
    ensures more { Grows ready.old.items ready.new.items }
    ensures may { OnOk result (may_be_ready upstream.old.side ≡ true → upstream.new.is_queued ≡ true) }
    ensures queued { OnOk result ((upstream.old.is_queued ≡ true → Contains ready.old.items upstream.old.k) → upstream.new.is_queued ≡ true
        → Contains ready.new.items upstream.old.k) }
{
    if upstream.joins_queue() {
        ready.push_back(upstream.k)?;
    }
    Ok(())
}

/// An upstream joins those of which it may have to be told what they took, if it may, and it
/// doesn't stand among them.
fn join_writes<S: Wire>(
    upstream: &mut Upstream<S>,
    writes: &mut VecDeque<u32>,
) -> Result<(), WorldFault>
    ensures stays { upstream.new ≡ record upstream.old { is_listed = upstream.new.is_listed } }
    ensures more { Grows writes.old.items writes.new.items }
    ensures owes { OnOk result (owes upstream.old.side ≡ true → upstream.new.is_listed ≡ true) }
    ensures listed { OnOk result ((upstream.old.is_listed ≡ true → Contains writes.old.items upstream.old.k) → upstream.new.is_listed ≡ true
        → Contains writes.new.items upstream.old.k) }
{
    if upstream.joins_list() {
        writes.push_back(upstream.k)?;
    }
    Ok(())
}
