//! Fields of the dynamic table, found by their hashes. Each that has the sought hash is compared,
//! so that fields whose hashes are alike cost steps and no wrong answer.

ghost use Rattle.std.specs.Prelude.{◌≡◌, ◌<◌, ◌↔◌, length, IsTrue, MatchOption};
ghost use Rattle.model.specs.Tables.{field_of};
ghost use Rattle.hpack_table.specs.Indexing.{HasNoName, HasNoText, IsIndexOf, IsNewestName, IsNewestText, name_hash, name_hashes, text_hash, text_hashes};
ghost use Rattle.hpack_table.specs.Finding.{Finds};
ghost use Rattle.hpack_table.specs.Searching.{Seeks, table_of};

use crate::chains::Chains;
use crate::field::Field;
use crate::found::Found;
use crate::index::{Index, hash_field};
use crate::ring::Ring;
use crate::table::FIRST_INDEX;

/// The least index of an entry with the name and the value, of which the static table has none;
/// where there is none, the least index of one with the name, as it was found in the static table.
pub fn find_by_hash(fields: &Ring, index: &Index, name: &[u8], value: &[u8], found: Found) -> Found
    requires seeks { Seeks (table_of fields.now) name.now value.now 62 found }
    requires few { length fields.now < 134217728 }
    requires index { IsIndexOf index.now fields.now }
    ensures { Finds (table_of fields.now) name.now value.now result }
{
    let hashes = hash_field(name, value);
    if let Some(place) = text_place(fields, &index.texts, hashes.text, name, value) {
        return Found::Both(FIRST_INDEX + place as u32);
    }
    if let Found::Name(_) = found {
        return found;
    }
    match name_place(fields, &index.names, hashes.name, name) {
        Some(place) => Found::Name(FIRST_INDEX + place as u32),
        None => Found::Absent,
    }
}

/// The place of the newest field with the name and the value.
fn text_place(fields: &Ring, texts: &Chains, hash: u64, name: &[u8], value: &[u8]) -> Option<usize>
    requires hash { hash ≡ text_hash name.now value.now }
    requires texts { texts.now ≡ text_hashes fields.now }
    ensures { MatchOption result (HasNoText fields.now name.now value.now) (IsNewestText fields.now name.now value.now) }
{
    let mut place = texts.first(hash);
    while let Some(field) = fields.get(place) {
        if is_field(field, name, value) {
            return Some(place);
        }
        place = texts.after(hash, place);
    }
    None
}

/// The place of the newest field with the name.
fn name_place(fields: &Ring, names: &Chains, hash: u64, name: &[u8]) -> Option<usize>
    requires hash { hash ≡ name_hash name.now }
    requires names { names.now ≡ name_hashes fields.now }
    ensures { MatchOption result (HasNoName fields.now name.now) (IsNewestName fields.now name.now) }
{
    let mut place = names.first(hash);
    while let Some(field) = fields.get(place) {
        if is_named(field, name) {
            return Some(place);
        }
        place = names.after(hash, place);
    }
    None
}

/// Whether a field has the name and the value.
fn is_field(field: &Field, name: &[u8], value: &[u8]) -> bool
    ensures { IsTrue result ↔ (field.now ≡ field_of name.now value.now) }
{
    field.name() == name && field.value() == value
}

/// Whether a field has the name.
fn is_named(field: &Field, name: &[u8]) -> bool
    ensures { IsTrue result ↔ (field.now.name ≡ name.now) }
{
    field.name() == name
}
