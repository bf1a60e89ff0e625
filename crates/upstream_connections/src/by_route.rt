//! The keys of the connections that are idle, by rising key: one route behind the other, and those
//! of a route by number.

ghost use Rattle.std.specs.Prelude.{ℕ, ◌≡◌, ◌<◌, ◌≤◌, length, slice_index_or};
ghost use Rattle.upstream_connections.specs.Connections.{others, among, Rise};
ghost use Rattle.upstream_connections.specs.Keys.{key, least_key};

use crate::progress::IDLE_PLACES;
use arrayvec::ArrayVec;

/// How far the keys of a route are from those of the next: as many as there are numbers.
const KEYS_OF_A_ROUTE: u64 = 4_294_967_296;

/// The key of the connection with this number, whose route is at this place.
pub fn key_of(route: u32, k: u32) -> u64
    ensures { result ≡ key route k }
{
    u64::from(route) * KEYS_OF_A_ROUTE + u64::from(k)
}

/// The connection with this key isn't idle, if it was.
pub fn strike(keys: &mut ArrayVec<u64, IDLE_PLACES>, key: u64)
    requires { Rise keys.old.items }
    ensures { keys.new.items ≡ others key keys.old.items }
{
    if let Ok(place) = keys.as_slice().binary_search(&key) {
        keys.remove(place);
    }
}

/// The connection with this key, which isn't among them, is idle, too.
pub fn enter(keys: &mut ArrayVec<u64, IDLE_PLACES>, key: u64)
    requires rising { Rise keys.old.items }
    requires room { length keys.old.items < 255 }
    ensures { keys.new.items ≡ among key keys.old.items }
{
    let place = place_for(keys.as_slice(), key);
    keys.insert(place, key);
}

/// The number of the first that is of the route at this place, if one is.
pub fn least_of(keys: &[u64], route: u32) -> Option<u32>
    requires { Rise keys.now }
    ensures { result ≡ least_key route keys.now }
{
    let first = key_of(route, 0);
    match keys.get(place_for(keys, first)) {
        Some(key) => match u32::try_from(*key - first) {
            Ok(number) => Some(number),
            Err(_) => None,
        },
        None => None,
    }
}

/// How many of them come before this key.
fn place_for(keys: &[u64], key: u64) -> usize
    requires { Rise keys.now }
    ensures within { result ≤ length keys.now }
    ensures before { (i : ℕ) → i < result → slice_index_or keys.now i 0 < key }
    ensures behind { result < length keys.now → key ≤ slice_index_or keys.now result 0 }
{
    match keys.binary_search(&key) {
        Ok(place) | Err(place) => place,
    }
}
