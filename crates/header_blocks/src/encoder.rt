//! The encoder of a direction, with its table.

ghost use Rattle.std.specs.Prelude.{◌≡◌, ℕ, List, [], ◌∷◌, ◌++◌, Some, None, false, true, OnOk, OnErr, IsErr};
ghost use Rattle.std.specs.List.{All};
ghost use Rattle.header_blocks.specs.Bounds.{IsBounded};
ghost use Rattle.header_blocks.specs.Encoding.{first_encoding, is_indexing, limits_with, StandsFor};
ghost use Rattle.header_blocks.specs.Chosen.{HasShortStrings};
ghost use Rattle.header_blocks.specs.Encodes.{Encodes};

use crate::limits::{Limits, due_maxima, limits_and};
use crate::policy::{Policy, Rules};
use crate::representations::write_block;
use hpack_table::{Field, Table};
use protocol::limits::FIRST_TABLE_SIZE;
use std::alloc::{AllocError, Global};
use std::marker::Model;

/// Encodes the blocks of a direction, in the order in which they are sent (RFC 7541). A clause sees
/// its table, the least and the last of the limits since the last block, whether fields are
/// inserted, and whether memory was refused.
#[derive(Drop)]
pub struct Encoder {
    alloc: Global,
    policy: Policy,
    table: Table,
    maximum: u32,
    limits: Option<Limits>,
    refused: bool,
}

impl Model for Encoder {
    ghost use Rattle.header_blocks.specs.Encoding.{Encoding, is_indexing};

    ghost Value = { Encoding };

    ghost view = { λ encoder. record { table = encoder.table; limits = encoder.limits; indexing = is_indexing encoder.policy; refused = encoder.refused } };

    ghost use Rattle.header_blocks.specs.Kept.{IsSound};

    ghost invariant = { λ encoder. IsSound encoder.table encoder.maximum encoder.limits (is_indexing encoder.policy) encoder.refused };
}

impl Encoder {
    /// An encoder that has written no block. Its table is empty and has the maximum 4,096.
    pub fn new(alloc: Global, policy: Policy) -> Encoder
        ensures { result ≡ first_encoding (is_indexing policy) }
    {
        Encoder {
            alloc,
            policy,
            table: first_table(alloc, policy),
            maximum: FIRST_TABLE_SIZE,
            limits: None,
            refused: false,
        }
    }

    /// Notes a limit that the peer sets on the table (RFC 7541, section 4.2), counted as at most 4,096. The next block
    /// begins with what it makes due.
    pub fn peer_limit(&mut self, limit: u32)
        ensures noted { self.new ≡ record self.old { limits = Some (limits_with self.old.limits limit) } }
        ensures stands_for { (limits : List ℕ) → StandsFor limits self.old.limits → StandsFor (limits ++ limit ∷ []) self.new.limits }
    {
        self.limits = Some(limits_and(self.limits, limit));
    }

    /// Adds the block of the fields at the end of `out`. The name and the value of a field have at
    /// most 65,536 octets each. Under the plain policy strings are written raw. An `Err` says that
    /// memory was refused; it leaves the octets of `out` as they were, and every later call answers
    /// it.
    pub fn encode(&mut self, fields: &[Field], out: &mut Vec<u8>) -> Result<(), AllocError>
        requires { All HasShortStrings fields.now }
        ensures encoded { OnOk result (Encodes self.old fields.now self.new.table out.old.items out.new.items) }
        ensures sound { OnOk result ((self.old.refused ≡ false) × (self.new.refused ≡ false)) }
        ensures goes_on { OnOk result (self.new ≡ record self.old { table = self.new.table; limits = None; refused = false }) }
        ensures unchanged { OnErr result (out.new.items ≡ out.old.items) }
        ensures stays_refused { OnErr result (self.new ≡ record self.old { table = self.new.table; refused = true }) }
        ensures refused { self.old.refused ≡ true → IsErr result }
        ensures plain { self.old.indexing ≡ false → self.new.table.fields ≡ [] }
        ensures bounded { IsBounded self.new.table }
    {
        if self.refused {
            return Err(AllocError);
        }
        let start = out.len();
        let due = due_maxima(self.maximum, self.limits);
        let rules = Rules {
            policy: self.policy,
            maximum: due.reached,
        };
        if let Err(error) = write_block(self.alloc, rules, due, &mut self.table, fields, out) {
            self.refused = true;
            out.truncate(start);
            return Err(error);
        }
        self.maximum = due.reached;
        self.limits = None;
        Ok(())
    }
}

/// The table before the first block. One to which fields are added finds them by their hashes.
fn first_table(alloc: Global, policy: Policy) -> Table
    ensures fields { result.fields ≡ [] }
    ensures maximum { result.maximum ≡ 4096 }
{
    match policy {
        Policy::Plain => Table::new(alloc, FIRST_TABLE_SIZE),
        Policy::Indexing => Table::with_index(alloc, FIRST_TABLE_SIZE),
    }
}
