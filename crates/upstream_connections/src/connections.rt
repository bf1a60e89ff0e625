//! Open connections, the oldest first, found by their numbers.

ghost use Rattle.std.specs.Prelude.{◌≡◌, suc, ◌+◌, ◌<◌, ◌≤◌, ◌^◌, map, reverse, Some, None, MatchOption, IfSome, IfNone};
ghost use Rattle.theory_requests.specs.Lines.{find, without};
ghost use Rattle.upstream_connections.specs.Connections.{number_of, works_for, marked_at, given_at};
ghost use Rattle.upstream_connections.specs.Connections.{put_at, taken_at, others, idle_numbers};
ghost use Rattle.upstream_connections.specs.Keys.{idle_keys, idle_route};
ghost use Rattle.upstream_connections.specs.Connections.{AreBelow, AreRising, IsOpenAt, IsOpenNowhere};
ghost use Rattle.upstream_connections.specs.Progress.{answer_of};

use crate::connection::UpstreamConnection;
use crate::idle::Idle;
use crate::progress::Progress;
use upstream_response::Answer;

/// The place of the connection with this number.
pub fn place_of(connections: &[UpstreamConnection], k: u32) -> Option<usize>
    requires { AreRising connections.now }
    ensures found { IfSome result (IsOpenAt connections.now k) }
    ensures absent { IfNone result (IsOpenNowhere connections.now k) }
{
    connections
        .binary_search_by_key(&k, |connection| connection.number())
        .ok()
}

/// The connection with this number.
pub fn find(connections: &[UpstreamConnection], k: u32) -> Option<&UpstreamConnection>
    requires { AreRising connections.now }
    ensures { MatchOption result (find number_of k (reverse connections.now) ≡ None) (λ connection. find number_of k (reverse connections.now)
        ≡ Some connection.now) }
{
    match place_of(connections, k) {
        Some(place) => Some(&connections[place]),
        None => None,
    }
}

/// The newest connection that works for this stream.
pub fn of_stream(connections: &[UpstreamConnection], id: u32) -> Option<&UpstreamConnection>
    ensures { MatchOption result (find works_for (suc id) (reverse connections.now) ≡ None) (λ connection. find works_for (suc id) (reverse connections.now)
        ≡ Some connection.now) }
{
    for connection in connections.iter().rev() {
        if connection.works_for(id) {
            return Some(connection);
        }
    }
    None
}

/// The place of the route of the connection with this number, if that is open and idle.
fn idle_route(connections: &[UpstreamConnection], k: u32) -> Option<u32>
    requires { AreRising connections.now }
    ensures { result ≡ idle_route (find number_of k (reverse connections.now)) }
{
    match find(connections, k) {
        Some(connection) => connection.idle_route(),
        None => None,
    }
}

/// The connection with this number isn't among those that are idle, if it was.
pub fn strike(connections: &[UpstreamConnection], idle: &mut Idle, k: u32)
    requires below { AreBelow (2 ^ 32) (reverse connections.now) }
    requires numbers { idle.old.numbers.items ≡ idle_numbers connections.now }
    requires keys { idle.old.keys.items ≡ idle_keys (reverse connections.now) }
    ensures numbers { idle.new.numbers.items ≡ others k idle.old.numbers.items }
    ensures keys { idle.new.keys.items ≡ idle_keys (without number_of k (reverse connections.now)) }
{
    if let Some(route) = idle_route(connections, k) {
        idle.strike(route, k);
    }
}

/// The response of the connection with this number is so far; the place of its route, if the
/// connection is open, and idle with it.
pub fn mark(connections: &mut Vec<UpstreamConnection>, k: u32, progress: Progress) -> Option<u32>
    requires { AreRising connections.old.items }
    ensures marked { reverse connections.new.items ≡ map (marked_at k (answer_of progress)) (reverse connections.old.items) }
    ensures idle { result ≡ idle_route (find number_of k (reverse connections.new.items)) }
{
    match place_of(connections, k) {
        Some(place) => {
            let connection = &mut connections[place];
            connection.mark(progress);
            connection.idle_route()
        }
        None => None,
    }
}

/// The connection with this number is given to a stream, with an answer of which nothing has come.
pub fn give(connections: &mut Vec<UpstreamConnection>, k: u32, stream: u32, answer: Answer)
    requires { AreRising connections.old.items }
    ensures { reverse connections.new.items ≡ map (given_at k stream answer) (reverse connections.old.items) }
{
    if let Some(place) = place_of(connections, k) {
        connections[place].give(stream, answer);
    }
}

/// So many octets more were put out for the connection with this number.
pub fn put(connections: &mut Vec<UpstreamConnection>, k: u32, count: u64)
    requires rising { AreRising connections.old.items }
    requires fits { IfSome (find number_of k (reverse connections.old.items)) (λ c. c.out + count < 2 ^ 64) }
    ensures { reverse connections.new.items ≡ map (put_at k count) (reverse connections.old.items) }
{
    if let Some(place) = place_of(connections, k) {
        connections[place].put(count);
    }
}

/// The side of the connection with this number took so many more.
pub fn take(connections: &mut Vec<UpstreamConnection>, k: u32, count: u64)
    requires rising { AreRising connections.old.items }
    requires fits { IfSome (find number_of k (reverse connections.old.items)) (λ c. c.took + count ≤ c.out) }
    ensures { reverse connections.new.items ≡ map (taken_at k count) (reverse connections.old.items) }
{
    if let Some(place) = place_of(connections, k) {
        connections[place].take(count);
    }
}

/// Removes the connection with this number, if it is open.
pub fn remove(connections: &mut Vec<UpstreamConnection>, k: u32)
    requires { AreRising connections.old.items }
    ensures { reverse connections.new.items ≡ without number_of k (reverse connections.old.items) }
{
    if let Some(place) = place_of(connections, k) {
        connections.remove(place);
    }
}
