//! Representations of fields, written at the end of octets.

ghost use Rattle.std.specs.Prelude.{◌≡◌, ◌≤◌, ◌/◌, ◌%◌, ◌^◌, false, [], length, OnOk, option_to_list, unwrap_or};
ghost use Rattle.std.specs.List.{All};
ghost use Rattle.std.specs.Option.{ForSome};
ghost use Rattle.model.specs.Octets.{IsFront};
ghost use Rattle.model.specs.Tables.{Table as TableOfFields};
ghost use Rattle.model.specs.Limits.{first_maximum};
ghost use Rattle.header_blocks.specs.Encoding.{is_indexing};
ghost use Rattle.header_blocks.specs.Writing.{CanBegin, AddsBlock};
ghost use Rattle.header_blocks.specs.Chosen.{HasShortStrings, IsNameIndex};
ghost use Rattle.header_blocks.specs.Encodes.{AddsRaw, AddsString, AddsLiteral, AddsField, AddsFields, AddsMaxima};
ghost use Rattle.header_blocks.specs.Bounds.{IsBounded};

use crate::limits::SizeUpdates;
use crate::policy::Rules;
use hpack_int::write;
use hpack_table::{Field, Found, Table};
use huffman::{encode, encoded_len};
use std::alloc::{AllocError, Global};

/// Writes a string (RFC 7541, section 5.2): as its Huffman text where that is to be taken and is
/// shorter, else its octets as they are.
fn write_string(compress: bool, string: &[u8], out: &mut Vec<u8>) -> Result<(), AllocError>
    requires { length string.now ≤ 65536 }
    ensures ok { OnOk result (AddsString compress string.now out.old.items out.new.items) }
    ensures front { IsFront out.old.items out.new.items }
{
    if !compress {
        return write_raw(string, out);
    }
    let length = encoded_len(string);
    if length >= string.len() {
        return write_raw(string, out);
    }
    write(7, 0x80, length as u32, out)?;
    encode(string, out)
}

/// Writes a string as its octets are.
fn write_raw(string: &[u8], out: &mut Vec<u8>) -> Result<(), AllocError>
    requires { length string.now ≤ 65536 }
    ensures ok { OnOk result (AddsRaw string.now out.old.items out.new.items) }
    ensures front { IsFront out.old.items out.new.items }
{
    write(7, 0, string.len() as u32, out)?;
    out.extend_from_slice(string)
}

/// Writes a literal behind a mark, with the name index, or with its name where that is 0 (RFC 7541, section 6.2).
fn write_literal(
    compress: bool,
    prefix: u8,
    mark: u8,
    index: u32,
    field: &Field,
    out: &mut Vec<u8>,
) -> Result<(), AllocError>
    requires some { 1 ≤ prefix }
    requires most { prefix ≤ 8 }
    requires no_bit { mark % 2 ^ prefix ≡ 0 }
    requires short { HasShortStrings field.now }
    ensures ok { OnOk result ((table : TableOfFields) → IsNameIndex table field.now.name index
        → AddsLiteral compress prefix (mark / 2 ^ prefix) table index field.now out.old.items out.new.items) }
    ensures front { IsFront out.old.items out.new.items }
{
    write(prefix, mark, index, out)?;
    if index == 0 {
        write_string(compress, field.name(), out)?;
    }
    write_string(compress, field.value(), out)
}

/// Writes a field, and inserts it where the rules say so.
fn write_field(
    alloc: Global,
    rules: Rules,
    table: &mut Table,
    field: &Field,
    out: &mut Vec<u8>,
) -> Result<(), AllocError>
    requires short { HasShortStrings field.now }
    requires maximum { table.old.maximum ≡ rules.maximum }
    requires plain { is_indexing rules.policy ≡ false → table.old.fields ≡ [] }
    ensures ok { OnOk result (AddsField (is_indexing rules.policy) table.old field.now table.new out.old.items out.new.items) }
    ensures front { IsFront out.old.items out.new.items }
    ensures maximum { table.new.maximum ≡ table.old.maximum }
    ensures plain { is_indexing rules.policy ≡ false → table.new.fields ≡ [] }
    ensures bounded { IsBounded table.old → IsBounded table.new }
{
    let index = match table.find(field.name(), field.value()) {
        Found::Both(index) => return write(7, 0x80, index, out),
        Found::Name(index) => index,
        Found::Absent => 0,
    };
    let compress = rules.compresses();
    if !rules.inserts(field) {
        return write_literal(compress, 4, 0, index, field, out);
    }
    write_literal(compress, 6, 0x40, index, field, out)?;
    table.add(field.copy(alloc)?)
}

/// Writes fields, one after another.
fn write_fields(
    alloc: Global,
    rules: Rules,
    table: &mut Table,
    fields: &[Field],
    out: &mut Vec<u8>,
) -> Result<(), AllocError>
    requires short { All HasShortStrings fields.now }
    requires maximum { table.old.maximum ≡ rules.maximum }
    requires plain { is_indexing rules.policy ≡ false → table.old.fields ≡ [] }
    ensures ok { OnOk result (AddsFields (is_indexing rules.policy) table.old fields.now table.new out.old.items out.new.items) }
    ensures front { IsFront out.old.items out.new.items }
    ensures maximum { table.new.maximum ≡ table.old.maximum }
    ensures plain { is_indexing rules.policy ≡ false → table.new.fields ≡ [] }
    ensures bounded { IsBounded table.old → IsBounded table.new }
{
    for field in fields {
        write_field(alloc, rules, table, field, out)?;
    }
    Ok(())
}

/// Writes a new maximum, if there is one, and sets it (RFC 7541, section 6.3).
fn write_maximum(
    table: &mut Table,
    maximum: Option<u32>,
    out: &mut Vec<u8>,
) -> Result<(), AllocError>
    requires { ForSome maximum (λ m. m ≤ first_maximum) }
    ensures ok { OnOk result (AddsMaxima table.old (option_to_list maximum) table.new out.old.items out.new.items) }
    ensures front { IsFront out.old.items out.new.items }
    ensures maximum { OnOk result (table.new.maximum ≡ unwrap_or maximum table.old.maximum) }
    ensures empty { table.old.fields ≡ [] → table.new.fields ≡ [] }
    ensures bounded { IsBounded table.old → IsBounded table.new }
{
    if let Some(maximum) = maximum {
        write(5, 0x20, maximum, out)?;
        table.set_max(maximum);
    }
    Ok(())
}

/// Writes a block: the maxima that are due, and the fields.
pub fn write_block(
    alloc: Global,
    rules: Rules,
    due: SizeUpdates,
    table: &mut Table,
    fields: &[Field],
    out: &mut Vec<u8>,
) -> Result<(), AllocError>
    requires short { All HasShortStrings fields.now }
    requires due { CanBegin table.old due rules.maximum }
    requires plain { is_indexing rules.policy ≡ false → table.old.fields ≡ [] }
    ensures ok { OnOk result (AddsBlock (is_indexing rules.policy) table.old due fields.now table.new out.old.items out.new.items) }
    ensures front { IsFront out.old.items out.new.items }
    ensures maximum { OnOk result (table.new.maximum ≡ rules.maximum) }
    ensures plain { is_indexing rules.policy ≡ false → table.new.fields ≡ [] }
    ensures bounded { IsBounded table.old → IsBounded table.new }
{
    write_maximum(table, due.least, out)?;
    write_maximum(table, due.last, out)?;
    write_fields(alloc, rules, table, fields, out)
}
