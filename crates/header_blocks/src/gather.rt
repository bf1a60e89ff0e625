//! The fields of a block, gathered as long as they fit.

ghost use Rattle.std.specs.Prelude.{◌≡◌, ℕ, List, [], ◌∷◌, ◌++◌, OnOk};
ghost use Rattle.model.specs.Messages.{Field as FieldLine};
ghost use Rattle.header_blocks.specs.Gathering.{Finishes, Holds};

use hpack_table::Field;
use std::alloc::{AllocError, Global};

/// Room for so many fields is made with the first one.
const FIRST_ROOM: usize = 16;

/// What a block says.
#[derive(Drop)]
pub enum Decoded {
    /// Its fields, in their order.
    Fields(Vec<Field>),
    /// The sizes of its fields pass the maximum.
    TooLarge,
}

/// The fields of a block so far, as long as their sizes leave room.
#[derive(Drop)]
pub struct Gathering {
    pub fields: Vec<Field>,
    pub room: Option<usize>,
}

/// Adds a field behind others. An `Err` says that memory was refused.
fn push(fields: &mut Vec<Field>, field: Field) -> Result<(), AllocError>
    ensures { OnOk result (fields.new.items ≡ fields.old.items ++ field ∷ []) }
{
    if fields.is_empty() {
        fields.reserve(FIRST_ROOM)?;
    }
    fields.push(field)?;
    Ok(())
}

impl Gathering {
    /// No fields, with room for sizes that sum to so much.
    pub fn new(alloc: Global, cap: usize) -> Gathering
        ensures { Holds cap [] result.fields.items result.room }
    {
        Gathering {
            fields: Vec::new(alloc),
            room: Some(cap),
        }
    }

    /// Adds the next field. Once one doesn't fit, none is kept.
    pub fn add(&mut self, field: Field) -> Result<(), AllocError>
        ensures { OnOk result ((cap : ℕ) (all : List FieldLine) → Holds cap all self.old.fields.items self.old.room
            → Holds cap (all ++ field ∷ []) self.new.fields.items self.new.room) }
    {
        let Some(room) = self.room else {
            return Ok(());
        };
        self.room = field.room_behind(room);
        if self.room.is_some() {
            push(&mut self.fields, field)?;
        } else {
            self.fields.clear();
        }
        Ok(())
    }

    /// All fields, or that they don't fit.
    pub fn finish(self) -> Decoded
        ensures { Finishes self.fields.items self.room result }
    {
        match self.room {
            Some(_) => Decoded::Fields(self.fields),
            None => Decoded::TooLarge,
        }
    }
}
