//! The table of a direction.

ghost use Rattle.std.specs.Prelude.{◌≡◌, ◌<◌, ◌^◌, ◌≤◌, [], ◌∷◌, length, OnSome, Some, None, MatchOption, OnOk, OnErr, IfOk};
ghost use Rattle.model.specs.Tables.{added, field_of, keep, look_up, resized, total_size};
ghost use Rattle.hpack_table.specs.Finding.{Finds};
ghost use Rattle.hpack_table.specs.Searching.{Seeks, table_of};

use crate::by_hash::find_by_hash;
use crate::field::Field;
use crate::found::{Found, is_both, met};
use crate::index::{Index, enter, shorten};
use crate::ring::Ring;
use crate::static_table::{STATIC_LENGTH, find_static, static_entry};
use std::alloc::{AllocError, Global};
use std::marker::Model;

/// The index of the newest field.
pub const FIRST_INDEX: u32 = 62;

/// The dynamic table of a direction. A clause sees its fields, the newest first, and the maximum of their sizes.
#[derive(Drop)]
pub struct Table {
    fields: Ring,
    size: usize,
    maximum: u32,
    /// Where fields are found by their hashes, if they are.
    index: Option<Index>,
}

impl Model for Table {
    ghost use Rattle.std.specs.Prelude.{◌≡◌, ◌<◌, ◌≤◌, ◌^◌};
    ghost use Rattle.std.specs.Option.{ForSome};
    ghost use Rattle.model.specs.Tables.{Table as TableOfFields, total_size};
    ghost use Rattle.hpack_table.specs.Indexing.{IsIndexOf};

    ghost Value = { TableOfFields };

    ghost view = { λ table. record { fields = table.fields; maximum = table.maximum } };

    ghost invariant = { λ table. (table.size ≡ total_size table.fields) × (table.size ≤ table.maximum) × (table.maximum < 2 ^ 32)
        × ForSome table.index (λ index. IsIndexOf index table.fields) };
}

impl Table {
    /// An empty table with this maximum.
    pub fn new(alloc: Global, maximum: u32) -> Table
        ensures fields { result.fields ≡ [] }
        ensures maximum { result.maximum ≡ maximum }
    {
        Table {
            fields: Ring::new(alloc),
            size: 0,
            maximum,
            index: None,
        }
    }

    /// An empty table with this maximum, which finds its fields by their hashes. It takes more
    /// memory for each. Behind a refusal it finds them by a walk.
    pub fn with_index(alloc: Global, maximum: u32) -> Table
        ensures fields { result.fields ≡ [] }
        ensures maximum { result.maximum ≡ maximum }
    {
        let mut table = Table::new(alloc, maximum);
        table.index = Some(Index::new(alloc));
        table
    }

    /// The maximum of the sizes.
    pub fn maximum(&self) -> u32
        ensures { result ≡ self.now.maximum }
    {
        self.maximum
    }

    /// The name and the value of the entry at an index: the static table from 1 to 61, then this one, the newest first
    /// (RFC 7541, section 2.3.3).
    pub fn get(&self, index: u32) -> Option<(&[u8], &[u8])>
        ensures small { OnSome result (index < 2 ^ 28) }
        ensures entry { MatchOption result (look_up self.now index ≡ None) (λ p. look_up self.now index ≡ Some (field_of p.0.now p.1.now)) }
    {
        if index == 0 {
            return None;
        }
        let place = index as usize - 1;
        if place < STATIC_LENGTH {
            return static_entry(place);
        }
        match self.fields.get(place - STATIC_LENGTH) {
            Some(field) => Some((field.name(), field.value())),
            None => None,
        }
    }

    /// Adds a field as the newest. The oldest go until all fit, and a field larger than the maximum
    /// empties the table (RFC 7541, section 4.4). An `Err` says that memory was refused; it changes
    /// nothing and drops the field.
    pub fn add(&mut self, field: Field) -> Result<(), AllocError>
        ensures ok { OnOk result (self.new ≡ added field self.old) }
        ensures err { OnErr result (self.new ≡ self.old) }
    {
        let maximum = self.maximum as usize;
        let Some(room) = field.room_behind(maximum) else {
            self.fields.clear();
            self.size = 0;
            shorten(&mut self.index, 0);
            return Ok(());
        };
        enter(&mut self.index, &field)?;
        let size = self.size + (maximum - room);
        let Ok(size) = insert(&mut self.fields, field, size, maximum) else {
            self.index = None;
            return Err(AllocError);
        };
        self.size = evict(&mut self.fields, size, maximum);
        shorten(&mut self.index, self.fields.len());
        Ok(())
    }

    /// Sets the maximum. The oldest fields go until all fit (RFC 7541, section 4.3).
    pub fn set_max(&mut self, maximum: u32)
        ensures { self.new ≡ resized maximum self.old }
    {
        self.size = evict(&mut self.fields, self.size, maximum as usize);
        self.maximum = maximum;
        shorten(&mut self.index, self.fields.len());
    }

    /// The least index of an entry with the name and the value; where there is none, the least
    /// index of one with the name.
    pub fn find(&self, name: &[u8], value: &[u8]) -> Found
        ensures { Finds self.now name.now value.now result }
    {
        let found = find_static(name, value);
        if is_both(found) {
            return found;
        }
        match &self.index {
            Some(index) => find_by_hash(&self.fields, index, name, value, found),
            None => find_added(&self.fields, name, value, found),
        }
    }
}

/// The least index of an entry with the name and the value, of which the static table has none;
/// where there is none, the least index of one with the name, as it was found in the static table.
fn find_added(fields: &Ring, name: &[u8], value: &[u8], found: Found) -> Found
    requires seeks { Seeks (table_of fields.now) name.now value.now 62 found }
    requires few { length fields.now < 134217728 }
    ensures { Finds (table_of fields.now) name.now value.now result }
{
    let mut found = found;
    let mut place = 0;
    while let Some(field) = fields.get(place) {
        let index = FIRST_INDEX + place as u32;
        found = met(found, index, field.name(), field.value(), name, value);
        if is_both(found) {
            return found;
        }
        place += 1;
    }
    found
}

/// Adds a field as the newest, where the sizes of all sum to this with it. Where that is over the
/// maximum, it takes the place of the oldest, and no memory is taken for it. It answers what the
/// sizes sum to then. An `Err` says that memory was refused; it changes nothing and drops the field.
fn insert(fields: &mut Ring, field: Field, size: usize, maximum: usize) -> Result<usize, AllocError>
    requires { size ≡ total_size (field ∷ fields.old) }
    ensures kept { OnOk result (keep maximum fields.new ≡ keep maximum (field ∷ fields.old)) }
    ensures size { IfOk result (λ sum. sum ≡ total_size fields.new) }
    ensures nothing { OnErr result (fields.new ≡ fields.old) }
    ensures all_fit { OnErr result (size ≤ maximum) }
{
    if size <= maximum {
        fields.push_front(field)?;
        return Ok(size);
    }
    let oldest = fields.turn(field);
    match oldest.room_behind(size) {
        Some(rest) => Ok(rest),
        None => unreachable!(),
    }
}

/// Takes the oldest fields out until the sizes of the others sum to at most the maximum, and answers their sum.
fn evict(fields: &mut Ring, size: usize, maximum: usize) -> usize
    requires { size ≡ total_size fields.old }
    ensures kept { fields.new ≡ keep maximum fields.old }
    ensures size { result ≡ total_size fields.new }
    ensures fits { result ≤ maximum }
{
    let mut size = size;
    while size > maximum {
        let Some(oldest) = fields.pop_back() else {
            unreachable!();
        };
        match oldest.room_behind(size) {
            Some(rest) => size = rest,
            None => unreachable!(),
        }
    }
    size
}
