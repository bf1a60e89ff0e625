//! Fragments joined to header blocks.

ghost use Rattle.std.specs.Prelude.{◌≡◌, ◌≤◌, ℕ, length, None, Some, OnOk, OnErr};
ghost use Rattle.model.specs.Limits.{longest_block};
ghost use Rattle.header_blocks.specs.Joining.{Joining, nothing_begun, fault_at, begins, continues, HasRoom, IsWithin};

use crate::block::Block;
use crate::join_fault::JoinFault;
use protocol::frame_types::CONTINUATION;
use protocol::limits::{LONGEST_BLOCK, MOST_CONTINUATIONS};
use std::alloc::{AllocError, Global};
use std::marker::Model;

/// Joins the fragments of HEADERS and CONTINUATION frames to header blocks (RFC 9113, section 4.3).
/// A clause sees the block that was begun and isn't whole, and of how many CONTINUATION frames it
/// came. A caller asks for each frame whether it has a fault before it hands its fragment over;
/// joining is then refused for want of memory alone. A block that is whole in its HEADERS is
/// decoded where it lies and never comes here.
#[derive(Drop)]
pub struct Joiner {
    alloc: Global,
    begun: Option<Block>,
    continuations: u32,
}

impl Model for Joiner {
    ghost use Rattle.header_blocks.specs.Joining.{Joining, IsWithin};

    ghost Value = { Joining };

    ghost view = { λ joiner. record { begun = joiner.begun; continuations = joiner.continuations } };

    ghost invariant = { λ joiner. IsWithin (record { begun = joiner.begun; continuations = joiner.continuations }) };
}

impl Joiner {
    /// A joiner to which no frame came.
    pub fn new(alloc: Global) -> Joiner
        ensures { result ≡ nothing_begun }
    {
        Joiner {
            alloc,
            begun: None,
            continuations: 0,
        }
    }

    /// The fault of a frame that comes next, by its type, its stream and its payload, whatever its
    /// flags are: `Outside` of a CONTINUATION where no block is begun, `Between` of any frame but a
    /// CONTINUATION of its stream where one is, and `TooLong` where the block passes 65,536 octets
    /// or 64 CONTINUATION frames with it. Asking changes nothing.
    pub fn fault(&self, kind: u8, id: u32, payload: &[u8]) -> Option<JoinFault>
        requires { length payload.now ≤ 16384 }
        ensures { (flags : ℕ) → result ≡ fault_at self.now (record { kind = kind; flags = flags; id = id; payload = payload.now }) }
    {
        let continues = kind == CONTINUATION;
        let Some(begun) = &self.begun else {
            return if continues {
                Some(JoinFault::Outside)
            } else {
                None
            };
        };
        if !continues || id != begun.id() {
            return Some(JoinFault::Between);
        }
        let too_long = payload.len() > LONGEST_BLOCK - begun.fragments().len();
        if too_long || self.continuations == MOST_CONTINUATIONS {
            return Some(JoinFault::TooLong);
        }
        None
    }

    /// Begins a block with the fragment of a HEADERS that has no END_HEADERS, and keeps whether it
    /// has END_STREAM. An `Err` says that memory was refused; it changes nothing.
    pub fn first(&mut self, id: u32, ends: bool, fragment: &[u8]) -> Result<(), AllocError>
        requires nothing { self.old.begun ≡ None }
        requires short { length fragment.now ≤ longest_block }
        ensures begun { OnOk result (self.new ≡ begins id ends fragment.now) }
        ensures unchanged { OnErr result (self.new ≡ self.old) }
        ensures within { IsWithin self.new }
    {
        self.begun = Some(Block::new(self.alloc, id, ends, fragment)?);
        self.continuations = 0;
        Ok(())
    }

    /// Adds the fragment of a CONTINUATION to the block that was begun. An `Err` says that memory
    /// was refused; it changes nothing.
    pub fn more(&mut self, fragment: &[u8]) -> Result<(), AllocError>
        requires { HasRoom self.old fragment.now }
        ensures begun { OnOk result (self.new ≡ continues self.old fragment.now) }
        ensures unchanged { OnErr result (self.new ≡ self.old) }
        ensures within { IsWithin self.new }
    {
        let Some(begun) = &mut self.begun else {
            unreachable!();
        };
        begun.add(fragment)?;
        self.continuations += 1;
        Ok(())
    }

    /// Hands out the block that was begun, if any, as it is once its last fragment came.
    pub fn finish(&mut self) -> Option<Block>
        ensures block { result ≡ self.old.begun }
        ensures nothing { self.new ≡ nothing_begun }
    {
        self.continuations = 0;
        self.begun.take()
    }
}
