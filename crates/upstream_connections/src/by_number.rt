//! The numbers of the connections that are idle, by rising number.

ghost use Rattle.std.specs.Prelude.{ℕ, ◌≡◌, ◌<◌, ◌≤◌, length, slice_index_or};
ghost use Rattle.upstream_connections.specs.Connections.{others, among, Rise};

use crate::progress::IDLE_PLACES;
use arrayvec::ArrayVec;

/// The connection with this number isn't idle, if it was.
pub fn strike(numbers: &mut ArrayVec<u32, IDLE_PLACES>, k: u32)
    requires { Rise numbers.old.items }
    ensures { numbers.new.items ≡ others k numbers.old.items }
{
    if let Ok(place) = numbers.as_slice().binary_search(&k) {
        numbers.remove(place);
    }
}

/// The connection with this number, which isn't among them, is idle, too.
pub fn enter(numbers: &mut ArrayVec<u32, IDLE_PLACES>, k: u32)
    requires rising { Rise numbers.old.items }
    requires room { length numbers.old.items < 255 }
    ensures { numbers.new.items ≡ among k numbers.old.items }
{
    let place = place_for(numbers.as_slice(), k);
    numbers.insert(place, k);
}

/// How many of them come before this number.
fn place_for(numbers: &[u32], k: u32) -> usize
    requires { Rise numbers.now }
    ensures within { result ≤ length numbers.now }
    ensures before { (i : ℕ) → i < result → slice_index_or numbers.now i 0 < k }
    ensures behind { result < length numbers.now → k ≤ slice_index_or numbers.now result 0 }
{
    match numbers.binary_search(&k) {
        Ok(place) | Err(place) => place,
    }
}
