//! The ring of the dynamic table's fields, the newest first.

ghost use Rattle.std.specs.Prelude.{◌≡◌, ◌<◌, ◌≤◌, ◌∷◌, ◌++◌, [], length, slice_get, Some, MatchOption, OnOk, OnErr};

use crate::field::Field;
use circular_buffer::HeapCircularBuffer;
use std::alloc::{AllocError, Global};
use std::marker::Model;

/// How many fields the first block has room for.
const FIRST_CAPACITY: usize = 8;

/// A ring of fields in one block. The first insertion makes the block, and one that finds it full
/// makes it larger, unless the oldest field goes with it. A clause sees the fields, the newest first.
#[derive(Drop)]
pub struct Ring {
    /// None before the first insertion.
    buffer: Option<HeapCircularBuffer<Field>>,
    alloc: Global,
}

impl Model for Ring {
    ghost use Rattle.std.specs.Prelude.{List};
    ghost use Rattle.model.specs.Messages.{Field as FieldLine};
    ghost use Rattle.hpack_table.specs.Ringed.{fields_in};

    ghost Value = { List FieldLine };

    ghost view = { λ ring. fields_in ring.buffer };
}

impl Ring {
    /// No fields. It takes no memory.
    pub fn new(alloc: Global) -> Ring
        ensures { result ≡ [] }
    {
        Ring {
            buffer: None,
            alloc,
        }
    }

    /// The number of fields.
    pub fn len(&self) -> usize
        ensures { result ≡ length self.now }
    {
        match &self.buffer {
            Some(buffer) => buffer.len(),
            None => 0,
        }
    }

    /// The field at a place; the newest is at 0.
    pub fn get(&self, place: usize) -> Option<&Field>
        ensures { MatchOption result (length self.now ≤ place) (λ field. (place < length self.now) × (slice_get self.now place ≡ Some field.now)) }
    {
        match &self.buffer {
            Some(buffer) => buffer.get(place),
            None => None,
        }
    }

    /// Adds a field as the newest, and lets go of none. An `Err` says that memory was refused; it
    /// changes nothing and drops the field.
    pub fn push_front(&mut self, field: Field) -> Result<(), AllocError>
        ensures ok { OnOk result (self.new ≡ field ∷ self.old) }
        ensures err { OnErr result (self.new ≡ self.old) }
    {
        if let Some(buffer) = &mut self.buffer {
            return push(buffer, field);
        }
        let mut buffer = HeapCircularBuffer::with_capacity(self.alloc, FIRST_CAPACITY)?;
        buffer.push_front(field);
        self.buffer = Some(buffer);
        Ok(())
    }

    /// Takes the oldest field out, if there is any.
    pub fn pop_back(&mut self) -> Option<Field>
        ensures { MatchOption result ((self.old ≡ []) × (self.new ≡ [])) (λ field. self.old ≡ self.new ++ field ∷ []) }
    {
        let Some(buffer) = &mut self.buffer else {
            return None;
        };
        buffer.pop_back()
    }

    /// Adds a field as the newest, and answers the oldest of all, which it takes out. It takes no
    /// memory.
    pub fn turn(&mut self, field: Field) -> Field
        ensures { field ∷ self.old ≡ self.new ++ result ∷ [] }
    {
        let Some(buffer) = &mut self.buffer else {
            return field;
        };
        if buffer.len() == 0 {
            return field;
        }
        let Some(oldest) = buffer.pop_back() else {
            unreachable!();
        };
        buffer.push_front(field);
        oldest
    }

    /// Drops all fields, and their block.
    pub fn clear(&mut self)
        ensures { self.new ≡ [] }
    {
        self.buffer = None;
    }
}

/// Adds a field at the front of a buffer, behind which there is room for it first.
fn push(buffer: &mut HeapCircularBuffer<Field>, field: Field) -> Result<(), AllocError>
    ensures ok { OnOk result (buffer.new.items ≡ field ∷ buffer.old.items) }
    ensures err { OnErr result (buffer.new.items ≡ buffer.old.items) }
{
    make_room(buffer)?;
    buffer.push_front(field);
    Ok(())
}

/// Makes a buffer larger where it is full.
fn make_room(buffer: &mut HeapCircularBuffer<Field>) -> Result<(), AllocError>
    ensures kept { buffer.new.items ≡ buffer.old.items }
    ensures room { OnOk result (length buffer.new.items < buffer.new.capacity) }
{
    if buffer.len() < buffer.capacity() {
        return Ok(());
    }
    let larger = (buffer.capacity() * 2).max(FIRST_CAPACITY);
    buffer.resize(larger)
}
