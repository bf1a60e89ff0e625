//! How an encoder writes fields.

ghost use Rattle.std.specs.Prelude.{◌≡◌, ◌↔◌, IsTrue};
ghost use Rattle.header_blocks.specs.Encoding.{is_indexing};
ghost use Rattle.header_blocks.specs.Inserting.{Inserts};

use hpack_table::Field;

/// Whether fields are inserted into the table, and strings stand as their Huffman text where that is shorter.
#[derive(Clone, Copy, PartialEq, Eq, Debug)]
pub enum Policy {
    /// No field is inserted, and all strings stand raw.
    Plain,
    /// Each field is inserted that stands in no table and fits, and strings stand as their Huffman
    /// text where that is shorter.
    Indexing,
}

/// How fields are written by a table with this maximum.
#[derive(Clone, Copy)]
pub struct Rules {
    pub policy: Policy,
    pub maximum: u32,
}

impl Rules {
    /// Whether a field that stands in no table is inserted.
    pub fn inserts(&self, field: &Field) -> bool
        ensures { IsTrue result ↔ Inserts self.now field.now }
    {
        self.policy == Policy::Indexing && field.room_behind(self.maximum as usize).is_some()
    }

    /// Whether Huffman text is taken where it is shorter.
    pub fn compresses(&self) -> bool
        ensures { result ≡ is_indexing self.now.policy }
    {
        self.policy == Policy::Indexing
    }
}
