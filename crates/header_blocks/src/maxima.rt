//! Maxima at the beginning of a block.

ghost use Rattle.std.specs.Prelude.{◌≡◌, ◌≤◌, ◌<◌, ◌/◌, ◌↔◌, [], drop, length, slice_index, IfErr, IfOk, IsTrue};
ghost use Rattle.model.specs.Blocks.{NoBlock};
ghost use Rattle.header_blocks.specs.Represented.{BeginsNoMaximum, UnlessMemory};
ghost use Rattle.header_blocks.specs.Bounds.{IsBounded};
ghost use Rattle.header_blocks.specs.Decoding.{TakesMaxima, TakesMaximum};
ghost use Rattle.header_blocks.specs.Faults.{IsMaximumFault, IsFaultOf};

use crate::fault::DecodeFault;
use crate::strings::take_int;
use hpack_table::Table;
use protocol::limits::LARGEST_TABLE_SIZE;

/// Whether a representation with this first octet is a maximum.
pub fn is_maximum(octet: u8) -> bool
    ensures { IsTrue result ↔ (32 ≤ octet × (octet < 64)) }
{
    32 <= octet && octet < 64
}

/// The maximum at the front of octets, and how many octets it takes (RFC 7541, section 6.3).
fn take_maximum(octets: &[u8]) -> Result<(u32, usize), DecodeFault>
    requires some { 0 < length octets.now }
    requires low { 32 ≤ slice_index octets.now 0 }
    requires high { slice_index octets.now 0 < 64 }
    ensures taken { IfOk result (λ p. TakesMaximum octets.now p.0 p.1) }
    ensures none { IfErr result (λ fault. UnlessMemory fault (BeginsNoMaximum octets.now)) }
    ensures fault { IfErr result (IsMaximumFault [] octets.now) }
{
    let (maximum, used) = take_int(5, octets)?;
    if maximum > LARGEST_TABLE_SIZE {
        return Err(DecodeFault::Maximum);
    }
    Ok((maximum, used))
}

/// Sets the maxima at the front of a block, and answers how many octets they take.
pub fn take_maxima(table: &mut Table, block: &[u8]) -> Result<usize, DecodeFault>
    ensures taken { IfOk result (λ used. TakesMaxima table.old block.now used table.new) }
    ensures ends { IfOk result (λ used. BeginsNoMaximum (drop used block.now)) }
    ensures unmarked { IfOk result (λ used. slice_index (drop used block.now) 0 / 32 ≡ 1 → ⊥) }
    ensures none { IfErr result (λ fault. UnlessMemory fault (NoBlock table.old block.now)) }
    ensures fault { IfErr result (IsFaultOf table.old block.now) }
    ensures bounded { IsBounded table.old → IsBounded table.new }
{
    let mut start = 0;
    while start < block.len() && is_maximum(block[start]) {
        let (maximum, used) = take_maximum(&block[start..])?;
        table.set_max(maximum);
        start += used;
    }
    Ok(start)
}
