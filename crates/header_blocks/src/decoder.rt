//! The decoder of a direction, with its table.

ghost use Rattle.std.specs.Prelude.{◌≡◌, if◌then◌else◌, [], IfOk, IfErr, IfSome, OnOk, OnErr, Some, None, Err};
ghost use Rattle.model.specs.Blocks.{NoBlock};
ghost use Rattle.model.specs.Tables.{added};
ghost use Rattle.header_blocks.specs.Represented.{UnlessMemory};
ghost use Rattle.header_blocks.specs.declared.fault.DecodeFault.TheVariants.{Memory};
ghost use Rattle.header_blocks.specs.Bounds.{IsBounded};
ghost use Rattle.header_blocks.specs.Decoding.{DecodesFrom, Settles};
ghost use Rattle.header_blocks.specs.Faults.{IsFaultOf};

use crate::fault::DecodeFault;
use crate::fields::{TakenField, skip_indexed, take_field};
use crate::gather::{Decoded, Gathering};
use crate::maxima::{is_maximum, take_maxima};
use crate::strings::take_int;
use hpack_table::Table;
use protocol::limits::FIRST_TABLE_SIZE;
use std::alloc::Global;
use std::marker::Model;
use std::snapshot::Snapshot;

/// Decodes the blocks of a direction, in the order in which they come (RFC 7541). A clause sees its
/// table, as the last block that was decoded leaves it, and the fault that it answers from then on,
/// if any.
#[derive(Drop)]
pub struct Decoder {
    table: Table,
    fault: Option<DecodeFault>,
    /// The table before the last block, for clauses alone: behind a fault no table is kept.
    before: Snapshot<Table>,
}

impl Model for Decoder {
    ghost use Rattle.std.specs.Prelude.{◌≤◌};
    ghost use Rattle.model.specs.Tables.{total_size};
    ghost use Rattle.header_blocks.specs.Bounds.{IsBounded};
    ghost use Rattle.header_blocks.specs.Directions.{Direction, table_behind};

    ghost Value = { Direction };

    ghost view = { λ decoder. record { table = table_behind decoder.fault decoder.before.value decoder.table; fault = decoder.fault } };

    ghost invariant = { λ decoder. IsBounded (table_behind decoder.fault decoder.before.value decoder.table)
        × (total_size decoder.table.fields ≤ total_size (table_behind decoder.fault decoder.before.value decoder.table).fields) };
}

impl Decoder {
    /// A decoder whose table has this maximum at first.
    pub fn new(alloc: Global, limit: u32) -> Decoder
        requires { limit ≡ 4096 }
        ensures fields { result.table.fields ≡ [] }
        ensures maximum { result.table.maximum ≡ limit }
        ensures fault { result.fault ≡ None }
    {
        let table = Table::new(alloc, limit);
        let before = Snapshot::of(&table);
        Decoder {
            table,
            fault: None,
            before,
        }
    }

    /// The fields of the next block of the direction, where their sizes (the octets of name and
    /// value, and 32) sum to at most `cap`; otherwise the whole block is decoded into the table all
    /// the same. A fault but `Memory` says that the octets are no block by the table. After a fault
    /// every call answers the same fault, and the table is seen as it was before.
    pub fn decode(
        &mut self,
        alloc: Global,
        block: &[u8],
        cap: usize,
    ) -> Result<Decoded, DecodeFault>
        ensures decoded { IfOk result (λ decoded. DecodesFrom self.old.table block.now cap self.new.table decoded) }
        ensures no_block { IfErr result (λ fault. self.old.fault ≡ None → UnlessMemory fault (NoBlock self.old.table block.now)) }
        ensures fault { IfErr result (λ fault. self.old.fault ≡ None → UnlessMemory fault (IsFaultOf self.old.table block.now fault)) }
        ensures goes_on { OnOk result ((self.old.fault ≡ None) × (self.new.fault ≡ None)) }
        ensures fault_stays { IfErr result (λ fault. self.new.fault ≡ Some fault) }
        ensures table_stays { OnErr result (self.new.table ≡ self.old.table) }
        ensures faulted { IfSome self.old.fault (λ fault. result ≡ Err fault) }
        ensures bounded { IsBounded self.new.table }
    {
        if let Some(fault) = self.fault {
            return Err(fault);
        }
        self.before = Snapshot::of(&self.table);
        let result = decode_block(alloc, &mut self.table, block, cap);
        if let Err(fault) = &result {
            self.fault = Some(*fault);
            self.table = Table::new(alloc, FIRST_TABLE_SIZE);
        }
        result
    }
}

/// The fields of a block, where their sizes sum to at most `cap`.
fn decode_block(
    alloc: Global,
    table: &mut Table,
    block: &[u8],
    cap: usize,
) -> Result<Decoded, DecodeFault>
    ensures decoded { IfOk result (λ decoded. DecodesFrom table.old block.now cap table.new decoded) }
    ensures none { IfErr result (λ fault. UnlessMemory fault (NoBlock table.old block.now)) }
    ensures fault { IfErr result (λ fault. UnlessMemory fault (IsFaultOf table.old block.now fault)) }
    ensures bounded { IsBounded table.old → IsBounded table.new }
{
    let mut start = take_maxima(table, block)?;
    let mut gathering = Gathering::new(alloc, cap);
    while start < block.len() {
        if is_maximum(block[start]) {
            take_int(5, &block[start..])?;
            return Err(DecodeFault::Late);
        }
        // past the cap an indexed field is copied no more, be it as long as the table allows
        if gathering.room.is_none() && block[start] >= 128 {
            start += skip_indexed(table, &block[start..])?;
            continue;
        }
        let taken = take_field(alloc, table, &block[start..])?;
        start += taken.used;
        settle(alloc, taken, table, &mut gathering)?;
    }
    Ok(gathering.finish())
}

/// Inserts a field that was taken, where its representation says so, and gathers it.
fn settle(
    alloc: Global,
    taken: TakenField,
    table: &mut Table,
    gathering: &mut Gathering,
) -> Result<(), DecodeFault>
    ensures settled { OnOk result (Settles taken table.old table.new gathering.old.fields.items gathering.old.room gathering.new.fields.items
        gathering.new.room) }
    ensures memory { IfErr result (λ fault. fault ≡ Memory) }
    ensures bounded { IsBounded table.old → IsBounded table.new }
{
    insert(alloc, &taken, table)?;
    gathering.add(taken.field)?;
    Ok(())
}

/// Inserts a field that was taken, where its representation says so.
fn insert(alloc: Global, taken: &TakenField, table: &mut Table) -> Result<(), DecodeFault>
    ensures inserted { OnOk result (table.new ≡ (if taken.now.inserts then added taken.now.field table.old else table.old)) }
    ensures memory { IfErr result (λ fault. fault ≡ Memory) }
    ensures bounded { IsBounded table.old → IsBounded table.new }
{
    if taken.inserts {
        table.add(taken.field.copy(alloc)?)?;
    }
    Ok(())
}
