//! The encoder and its table.

use crate::exchanges::{encode_one, fields_of};
use crate::made::Made;
use crate::samples::SMALL_HEAD;
use header_blocks::{Encoder, Policy};
use hpack_table::{Field, Found, Table};
use std::alloc::Global;

/// Encodes 8 fields, of which none is inserted.
pub(crate) fn encode(alloc: Global, rounds: u32, made: &mut Made) -> Option<()> {
    let fields = fields_of(alloc, SMALL_HEAD)?;
    let mut encoder = Encoder::new(alloc, Policy::Plain);
    for _ in 0..rounds {
        made.clear();
        encode_one(&mut encoder, &fields, &mut made.octets)?;
    }
    Some(())
}

/// Encodes 8 fields that stand in the table.
pub(crate) fn encode_known(alloc: Global, rounds: u32, made: &mut Made) -> Option<()> {
    let fields = fields_of(alloc, SMALL_HEAD)?;
    let mut encoder = Encoder::new(alloc, Policy::Indexing);
    encode_one(&mut encoder, &fields, &mut made.octets)?;
    for _ in 0..rounds {
        made.clear();
        encode_one(&mut encoder, &fields, &mut made.octets)?;
    }
    Some(())
}

/// Encodes 8 fields that don't stand in the full table, as Huffman text: each time the next 8 of
/// 96, of which it has room for 83.
pub(crate) fn encode_new(alloc: Global, rounds: u32, made: &mut Made) -> Option<()> {
    let fields = numbered_fields(alloc)?;
    let mut encoder = Encoder::new(alloc, Policy::Indexing);
    encode_one(&mut encoder, &fields, &mut made.octets)?;
    for round in 0..rounds {
        made.clear();
        let start = (round % 12) as usize * 8;
        if let Some(next) = fields.get(start..start + 8) {
            encode_one(&mut encoder, next, &mut made.octets)?;
        }
    }
    Some(())
}

/// Looks a field up by its hashes whose name doesn't stand in the full table, but is as long as all names there.
pub(crate) fn find(alloc: Global, rounds: u32, made: &mut Made) -> Option<()> {
    let mut table = Table::with_index(alloc, 4096);
    for field in numbered_fields(alloc)? {
        table.add(field).ok()?;
    }
    for _ in 0..rounds {
        made.clear();
        let index = match table.find(b"x-textno", b"number no") {
            Found::Both(index) | Found::Name(index) => index,
            Found::Absent => 0,
        };
        made.octets.push(u8::try_from(index).ok()?).ok()?;
    }
    Some(())
}

/// 96 fields as `x-text00: number 00`, in their order.
fn numbered_fields(alloc: Global) -> Option<Vec<Field>> {
    let mut head = Vec::new(alloc);
    head.extend_from_slice(b"HTTP/1.1 200 OK\r\n").ok()?;
    for number in 0..96u8 {
        let digits = [b'0' + number / 10, b'0' + number % 10];
        head.extend_from_slice(b"x-text").ok()?;
        head.extend_from_slice(&digits).ok()?;
        head.extend_from_slice(b": number ").ok()?;
        head.extend_from_slice(&digits).ok()?;
        head.extend_from_slice(b"\r\n").ok()?;
    }
    head.extend_from_slice(b"\r\n").ok()?;
    fields_of(alloc, &head)
}
