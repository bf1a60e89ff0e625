//! A header block, as far as its frames came.

ghost use Rattle.std.specs.Prelude.{◌≡◌, ◌++◌, OnOk, OnErr, IfOk};

use std::alloc::{AllocError, Global};
use std::marker::Model;

/// A header block, as far as its frames came. A clause sees its stream, whether its HEADERS has
/// END_STREAM, and its fragments, joined.
#[derive(Drop)]
pub struct Block {
    id: u32,
    ends: bool,
    fragments: Vec<u8>,
}

impl Model for Block {
    ghost use Rattle.model.specs.Decoding.{Partial};

    ghost Value = { Partial };

    ghost view = { λ block. record { id = block.id; ends = block.ends; fragments = block.fragments.items } };
}

impl Block {
    /// The block that a HEADERS with this fragment begins.
    pub(crate) fn new(
        alloc: Global,
        id: u32,
        ends: bool,
        fragment: &[u8],
    ) -> Result<Block, AllocError>
        ensures { IfOk result (λ block. block ≡ record { id = id; ends = ends; fragments = fragment.now }) }
    {
        Ok(Block {
            id,
            ends,
            fragments: Vec::from_slice(alloc, fragment)?,
        })
    }

    /// Adds a fragment at the end. An `Err` says that memory was refused; it changes nothing.
    pub(crate) fn add(&mut self, fragment: &[u8]) -> Result<(), AllocError>
        ensures added { OnOk result (self.new ≡ record self.old { fragments = self.old.fragments ++ fragment.now }) }
        ensures unchanged { OnErr result (self.new ≡ self.old) }
    {
        self.fragments.extend_from_slice(fragment)
    }

    /// The stream of the block.
    pub fn id(&self) -> u32
        ensures { result ≡ self.now.id }
    {
        self.id
    }

    /// Whether the HEADERS of the block has END_STREAM.
    pub fn ends(&self) -> bool
        ensures { result ≡ self.now.ends }
    {
        self.ends
    }

    /// The octets of the block.
    pub fn fragments(&self) -> &[u8]
        ensures { result.now ≡ self.now.fragments }
    {
        &self.fragments
    }
}
