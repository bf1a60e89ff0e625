//! A header field: its name and its value.

ghost use Rattle.std.specs.Prelude.{◌≡◌, ◌-◌, ◌≤◌, IfOk, SomeIff};
ghost use Rattle.model.specs.Tables.{field_size};

use std::alloc::{AllocError, Global};
use std::marker::Model;

/// A header field (RFC 9110, section 5): a name and a value, each of any octets, in one piece of memory.
#[derive(Drop)]
pub struct Field {
    /// The name, and the value behind it.
    text: Vec<u8>,
    /// Where the value begins.
    split: usize,
}

impl Model for Field {
    ghost use Rattle.std.specs.Prelude.{◌≤◌, length, take, drop};
    ghost use Rattle.model.specs.Messages.{Field as Meaning};

    ghost Value = { Meaning };

    ghost view = { λ field. record { name = take field.split field.text.items; value = drop field.split field.text.items } };

    ghost invariant = { λ field. field.split ≤ length field.text.items };
}

impl Field {
    /// The field of this name and this value. It takes no more memory where the name has room for the value behind it.
    pub fn new(name: Vec<u8>, value: &[u8]) -> Result<Field, AllocError>
        ensures name { IfOk result (λ field. field.name ≡ name.items) }
        ensures value { IfOk result (λ field. field.value ≡ value.now) }
    {
        let split = name.len();
        let mut text = name;
        text.extend_from_slice(value)?;
        Ok(Field { text, split })
    }

    /// The field whose name and value have these octets.
    pub fn of(alloc: Global, name: &[u8], value: &[u8]) -> Result<Field, AllocError>
        ensures name { IfOk result (λ field. field.name ≡ name.now) }
        ensures value { IfOk result (λ field. field.value ≡ value.now) }
    {
        let mut text = Vec::with_capacity(alloc, name.len().saturating_add(value.len()))?;
        text.extend_from_slice(name)?;
        Field::new(text, value)
    }

    /// The octets of the name.
    pub fn name(&self) -> &[u8]
        ensures { result.now ≡ self.now.name }
    {
        &self.text[..self.split]
    }

    /// The octets of the value.
    pub fn value(&self) -> &[u8]
        ensures { result.now ≡ self.now.value }
    {
        &self.text[self.split..]
    }

    /// A copy of the field.
    pub fn copy(&self, alloc: Global) -> Result<Field, AllocError>
        ensures { IfOk result (λ field. field ≡ self.now) }
    {
        Ok(Field {
            text: Vec::from_slice(alloc, &self.text)?,
            split: self.split,
        })
    }

    /// What is left of the room for sizes behind this field; its size is the octets of its name,
    /// those of its value, and 32 (RFC 7541, section 4.1). None where it doesn't fit.
    pub fn room_behind(&self, room: usize) -> Option<usize>
        ensures { SomeIff result (field_size self.now ≤ room) (room - field_size self.now) }
    {
        room.checked_sub(self.text.len())?.checked_sub(32)
    }
}
