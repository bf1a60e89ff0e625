//! What may be read.

ghost use Rattle.sockets.specs.Rooms.{room_in};
ghost use Rattle.std.specs.Prelude.{◌≡◌};

/// How many octets of a connection may come in one event: none of one that isn't open.
pub fn room_of(k: u32, rooms: &[(u32, usize)]) -> usize
    ensures { result ≡ room_in k rooms.now }
{
    for (other, room) in rooms {
        if *other == k {
            return *room;
        }
    }
    0
}
