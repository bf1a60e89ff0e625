//! What a search by rising indices has found.

ghost use Rattle.std.specs.Prelude.{◌≡◌, ◌+◌, Some};
ghost use Rattle.model.specs.Tables.{Table, look_up, field_of};
ghost use Rattle.hpack_table.specs.Searching.{Met, Seeks, is_both};

/// Where a field is found, by the least index of both tables.
#[derive(Clone, Copy, PartialEq, Eq, Debug)]
pub enum Found {
    /// An entry with the name and the value.
    Both(u32),
    /// No such entry, but one with the name.
    Name(u32),
    /// No entry with the name.
    Absent,
}

/// Whether the name and the value are found.
pub fn is_both(found: Found) -> bool
    ensures { result ≡ is_both found }
{
    matches!(found, Found::Both(_))
}

/// What is found once the entry at the next index is looked at, where the name and the value weren't found below it.
pub fn met(
    found: Found,
    index: u32,
    entry_name: &[u8],
    entry_value: &[u8],
    name: &[u8],
    value: &[u8],
) -> Found
    ensures { (table : Table) → look_up table index ≡ Some (field_of entry_name.now entry_value.now) → Seeks table name.now value.now index found
        → Met table name.now value.now (index + 1) result }
{
    if entry_name != name {
        return found;
    }
    if entry_value == value {
        return Found::Both(index);
    }
    match found {
        Found::Absent => Found::Name(index),
        Found::Name(_) | Found::Both(_) => found,
    }
}
