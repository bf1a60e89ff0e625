//! Representations of fields at the front of octets.

ghost use Rattle.std.specs.Prelude.{◌≤◌, ◌<◌, ◌⊎◌, length, IfErr, IfOk, slice_index};
ghost use Rattle.header_blocks.specs.Represented.{BeginsNoField, BeginsNoLiteral, BeginsNoName, SkipsField, TakesField, TakesLiteral, TakesName, UnlessMemory};
ghost use Rattle.header_blocks.specs.Faults.{IsNameFault, IsLiteralFault, IsFieldFault};

use crate::fault::DecodeFault;
use crate::strings::{take_int, take_string};
use hpack_table::{Field, Table};
use std::alloc::Global;

/// A field's representation that was taken from the front of octets.
#[derive(Drop)]
pub struct TakenField {
    pub field: Field,
    /// How many octets it takes.
    pub used: usize,
    /// Whether it is inserted into the table.
    pub inserts: bool,
}

/// The name of a literal, by its index or, at index 0, from the front of the octets; and how many octets it takes.
fn take_name(
    alloc: Global,
    table: &Table,
    index: u32,
    octets: &[u8],
) -> Result<(Vec<u8>, usize), DecodeFault>
    ensures taken { IfOk result (λ p. TakesName table.now index octets.now p.0.items p.1) }
    ensures none { IfErr result (λ fault. UnlessMemory fault (BeginsNoName table.now index octets.now)) }
    ensures fault { IfErr result (λ fault. UnlessMemory fault (IsNameFault table.now index octets.now fault)) }
{
    if index == 0 {
        return take_string(alloc, octets);
    }
    match table.get(index) {
        Some((name, _)) => Ok((Vec::from_slice(alloc, name)?, 0)),
        None => Err(DecodeFault::Index),
    }
}

/// The literal at the front of octets, whose name index has a prefix of so many bits, and how many octets it takes (RFC
/// 7541, section 6.2).
fn take_literal(
    alloc: Global,
    table: &Table,
    prefix: u8,
    octets: &[u8],
) -> Result<(Field, usize), DecodeFault>
    requires some { 1 ≤ prefix }
    requires most { prefix ≤ 8 }
    ensures taken { IfOk result (λ p. TakesLiteral table.now prefix octets.now p.0 p.1) }
    ensures none { IfErr result (λ fault. UnlessMemory fault (BeginsNoLiteral table.now prefix octets.now)) }
    ensures fault { IfErr result (λ fault. UnlessMemory fault (IsLiteralFault table.now prefix octets.now fault)) }
{
    let (index, start) = take_int(prefix, octets)?;
    let (name, name_length) = take_name(alloc, table, index, &octets[start..])?;
    let value_start = start + name_length;
    let (value, value_length) = take_string(alloc, &octets[value_start..])?;
    let field = Field::new(name, &value)?;
    Ok((field, value_start + value_length))
}

/// The indexed field at the front of octets (RFC 7541, section 6.1).
fn take_indexed(alloc: Global, table: &Table, octets: &[u8]) -> Result<TakenField, DecodeFault>
    requires some { 0 < length octets.now }
    requires marked { 128 ≤ slice_index octets.now 0 }
    ensures taken { IfOk result (λ taken. TakesField table.now octets.now taken) }
    ensures none { IfErr result (λ fault. UnlessMemory fault (BeginsNoField table.now octets.now)) }
    ensures fault { IfErr result (λ fault. UnlessMemory fault (IsFieldFault table.now octets.now fault)) }
{
    let (index, used) = take_int(7, octets)?;
    let Some((name, value)) = table.get(index) else {
        return Err(DecodeFault::Index);
    };
    let field = Field::of(alloc, name, value)?;
    Ok(TakenField {
        field,
        used,
        inserts: false,
    })
}

/// How many octets the indexed field at the front of octets takes (RFC 7541, section 6.1).
pub fn skip_indexed(table: &Table, octets: &[u8]) -> Result<usize, DecodeFault>
    requires some { 0 < length octets.now }
    requires marked { 128 ≤ slice_index octets.now 0 }
    ensures skipped { IfOk result (SkipsField table.now octets.now) }
    ensures none { IfErr result (λ fault. UnlessMemory fault (BeginsNoField table.now octets.now)) }
    ensures fault { IfErr result (λ fault. UnlessMemory fault (IsFieldFault table.now octets.now fault)) }
{
    let (index, used) = take_int(7, octets)?;
    let Some(_) = table.get(index) else {
        return Err(DecodeFault::Index);
    };
    Ok(used)
}

/// The representation of a field at the front of octets (RFC 7541, section 6); a maximum isn't one.
pub fn take_field(alloc: Global, table: &Table, octets: &[u8]) -> Result<TakenField, DecodeFault>
    requires some { 0 < length octets.now }
    requires no_maximum { slice_index octets.now 0 < 32 ⊎ (64 ≤ slice_index octets.now 0) }
    ensures taken { IfOk result (λ taken. TakesField table.now octets.now taken) }
    ensures none { IfErr result (λ fault. UnlessMemory fault (BeginsNoField table.now octets.now)) }
    ensures fault { IfErr result (λ fault. UnlessMemory fault (IsFieldFault table.now octets.now fault)) }
{
    if octets[0] >= 128 {
        return take_indexed(alloc, table, octets);
    }
    let inserts = octets[0] >= 64;
    let prefix = if inserts { 6 } else { 4 };
    let (field, used) = take_literal(alloc, table, prefix, octets)?;
    Ok(TakenField {
        field,
        used,
        inserts,
    })
}
