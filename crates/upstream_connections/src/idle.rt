//! The connections that are idle.

ghost use Rattle.std.specs.Prelude.{◌≡◌, ◌<◌, [], length};
ghost use Rattle.upstream_connections.specs.Connections.{others, among, Rise};
ghost use Rattle.upstream_connections.specs.Keys.{key, least_key};

use crate::progress::IDLE_PLACES;
use crate::{by_number, by_route};
use arrayvec::ArrayVec;

/// The connections that are idle, each in two lists: by its number, and by its route and number.
#[derive(Drop)]
pub struct Idle {
    /// Their numbers, which rise.
    pub numbers: ArrayVec<u32, IDLE_PLACES>,
    /// Their keys, which rise.
    pub keys: ArrayVec<u64, IDLE_PLACES>,
}

impl Idle {
    /// None is idle.
    pub fn new() -> Idle
        ensures numbers { result.numbers.items ≡ [] }
        ensures keys { result.keys.items ≡ [] }
    {
        Idle {
            numbers: ArrayVec::new(),
            keys: ArrayVec::new(),
        }
    }

    /// The connection with this number, whose route is at this place, isn't idle, if it was.
    pub fn strike(&mut self, route: u32, k: u32)
        requires numbers { Rise self.old.numbers.items }
        requires keys { Rise self.old.keys.items }
        ensures numbers { self.new.numbers.items ≡ others k self.old.numbers.items }
        ensures keys { self.new.keys.items ≡ others (key route k) self.old.keys.items }
    {
        by_number::strike(&mut self.numbers, k);
        by_route::strike(&mut self.keys, by_route::key_of(route, k));
    }

    /// The connection with this number, whose route is at this place, and which isn't among them,
    /// is idle, too.
    pub fn enter(&mut self, route: u32, k: u32)
        requires numbers { Rise self.old.numbers.items }
        requires keys { Rise self.old.keys.items }
        requires room { length self.old.numbers.items < 255 }
        requires space { length self.old.keys.items < 255 }
        ensures numbers { self.new.numbers.items ≡ among k self.old.numbers.items }
        ensures keys { self.new.keys.items ≡ among (key route k) self.old.keys.items }
    {
        by_number::enter(&mut self.numbers, k);
        by_route::enter(&mut self.keys, by_route::key_of(route, k));
    }

    /// The number of the one of the route at this place that was opened first, if one is.
    pub fn least_of(&self, route: u32) -> Option<u32>
        requires { Rise self.now.keys.items }
        ensures { result ≡ least_key route self.now.keys.items }
    {
        by_route::least_of(self.keys.as_slice(), route)
    }
}
