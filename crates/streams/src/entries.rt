//! Entries of streams, found by their ids.

ghost use Rattle.std.specs.Prelude.{◌≡◌, ◌-◌, length, IfOk, IfErr};
ghost use Rattle.std.specs.Bool.{OnTrue};
ghost use Rattle.streams.specs.Records.{id_at, IsRising, IsAt, IsGap};

/// Where what is kept of a stream lies, or all of it.
#[derive(Clone, Copy, Debug, PartialEq, Eq)]
pub enum Slot {
    /// It is active: its record is at this key.
    Live(u32),
    /// It is over: whether the gateway reset it.
    Over(bool),
}

/// A stream that was opened.
#[derive(Clone, Copy, Debug, PartialEq, Eq)]
pub struct StreamEntry {
    pub id: u32,
    pub slot: Slot,
}

/// The place of the entry with this id, or the place at which it would stand. Where the client has
/// opened the ids in turn, none left out, it is known at once; else a search by halves finds it.
pub fn place_of(entries: &[StreamEntry], id: u32) -> Result<usize, usize>
    requires { IsRising entries.now }
    ensures found { IfOk result (IsAt entries.now id) }
    ensures absent { IfErr result (IsGap entries.now id) }
{
    let in_turn = id as usize / 2;
    if has_id_at(entries, in_turn, id) {
        return Ok(in_turn);
    }
    entries.binary_search_by_key(&id, |entry| entry.id)
}

/// Whether the entry with this id is at the place.
fn has_id_at(entries: &[StreamEntry], place: usize, id: u32) -> bool
    ensures { OnTrue result (IsAt entries.now id place) }
{
    match entries.get(place) {
        Some(entry) => entry.id == id,
        None => false,
    }
}

/// The id of the last entry, or 0 where there is none.
pub fn last_id(entries: &[StreamEntry]) -> u32
    ensures { result ≡ id_at entries.now (length entries.now - 1) }
{
    let [.., last] = entries else {
        return 0;
    };
    last.id
}
