//! Requests and responses through the layers, and through each of them.

ghost use Rattle.std.specs.Bool.{OnTrue};
ghost use Rattle.std.specs.List.{All};
ghost use Rattle.header_blocks.specs.Chosen.{HasShortStrings};

use crate::made::Made;
use crate::samples::{FIRST_BLOCK, LARGE_HEAD, LATER_BLOCKS, SMALL_HEAD};
use h1_reader::{Piece, Reader};
use h1_writer::Sender;
use header_blocks::{Decoded, Decoder, Encoder, Policy};
use hpack_table::Field;
use request_rules::check_head;
use std::alloc::Global;

/// The requests of a connection.
const REQUESTS: usize = 100;

/// The most that the sizes of a block's fields may sum to.
const LIST_LIMIT: usize = 16384;

/// The first maximum of a table.
const FIRST_MAXIMUM: u32 = 4096;

/// The block of a connection's request at a place.
fn block_at(place: usize) -> &'static [u8] {
    if place == 0 {
        FIRST_BLOCK
    } else {
        LATER_BLOCKS[place % LATER_BLOCKS.len()]
    }
}

/// The fields of the next block.
pub(crate) fn next_fields(
    alloc: Global,
    decoder: &mut Decoder,
    block: &[u8],
) -> Option<Vec<Field>> {
    match decoder.decode(alloc, block, LIST_LIMIT).ok()? {
        Decoded::Fields(fields) => Some(fields),
        Decoded::TooLarge => None,
    }
}

/// Checks a request's fields and writes its text.
fn send_one(alloc: Global, fields: &[Field], out: &mut Vec<u8>) -> Option<()> {
    let head = check_head(alloc, fields, true).ok()?;
    Sender::start(&head, true, false, out).ok()?;
    Some(())
}

/// Whether a field's strings are short enough to be encoded.
fn is_short(field: &Field) -> bool
    ensures { OnTrue result (HasShortStrings field.now) }
{
    field.name().len() <= 65536 && field.value().len() <= 65536
}

/// Whether the strings of fields are short enough to be encoded.
fn are_short(fields: &[Field]) -> bool
    ensures { OnTrue result (All HasShortStrings fields.now) }
{
    for field in fields {
        if !is_short(field) {
            return false;
        }
    }
    true
}

/// Encodes fields.
pub(crate) fn encode_one(encoder: &mut Encoder, fields: &[Field], out: &mut Vec<u8>) -> Option<()> {
    if !are_short(fields) {
        return None;
    }
    encoder.encode(fields, out).ok()
}

/// Reads a response's head.
fn read_one(alloc: Global, head: &[u8], pieces: &mut Vec<Piece>) -> Option<()> {
    let mut reader = Reader::new(alloc, false);
    reader.feed(head, pieces).ok()?;
    Some(())
}

/// The fields of a response's head.
pub(crate) fn fields_of(alloc: Global, head: &[u8]) -> Option<Vec<Field>> {
    let mut pieces = Vec::new(alloc);
    read_one(alloc, head, &mut pieces)?;
    match pieces.pop()? {
        Piece::Head(head) => Some(head.into_fields()),
        _ => None,
    }
}

/// 100 requests of ten fields on a connection, each decoded, checked and written, and a response's
/// head of 8 fields for each, read and encoded.
pub(crate) fn exchange(alloc: Global, rounds: u32, made: &mut Made) -> Option<()> {
    for _ in 0..rounds {
        made.clear();
        exchange_once(alloc, &mut made.octets)?;
    }
    Some(())
}

/// Decodes the next block and writes its request.
fn send_next(alloc: Global, decoder: &mut Decoder, block: &[u8], out: &mut Vec<u8>) -> Option<()> {
    let request = next_fields(alloc, decoder, block)?;
    send_one(alloc, &request, out)
}

/// Reads a response's head and encodes it.
fn answer_next(alloc: Global, encoder: &mut Encoder, out: &mut Vec<u8>) -> Option<()> {
    let response = fields_of(alloc, SMALL_HEAD)?;
    encode_one(encoder, &response, out)
}

/// The requests of one connection and their responses, over its tables.
fn exchange_all(
    alloc: Global,
    decoder: &mut Decoder,
    encoder: &mut Encoder,
    out: &mut Vec<u8>,
) -> Option<()> {
    for place in 0..REQUESTS {
        send_next(alloc, decoder, block_at(place), out)?;
        answer_next(alloc, encoder, out)?;
    }
    Some(())
}

/// The same over new tables.
fn exchange_once(alloc: Global, out: &mut Vec<u8>) -> Option<()> {
    let mut decoder = Decoder::new(alloc, FIRST_MAXIMUM);
    let mut encoder = Encoder::new(alloc, Policy::Plain);
    exchange_all(alloc, &mut decoder, &mut encoder, out)
}

/// Decodes the blocks of 100 requests.
pub(crate) fn decode(alloc: Global, rounds: u32, made: &mut Made) -> Option<()> {
    for _ in 0..rounds {
        made.clear();
        decode_once(alloc, &mut made.fields)?;
    }
    Some(())
}

/// Decodes the blocks of one connection, and keeps the last fields.
fn decode_once(alloc: Global, kept: &mut Vec<Field>) -> Option<()> {
    let mut decoder = Decoder::new(alloc, FIRST_MAXIMUM);
    for place in 0..REQUESTS {
        *kept = next_fields(alloc, &mut decoder, block_at(place))?;
    }
    Some(())
}

/// Checks a request's head of ten fields and writes its text.
pub(crate) fn send(alloc: Global, rounds: u32, made: &mut Made) -> Option<()> {
    let mut decoder = Decoder::new(alloc, FIRST_MAXIMUM);
    let request = next_fields(alloc, &mut decoder, FIRST_BLOCK)?;
    for _ in 0..rounds {
        made.clear();
        send_one(alloc, &request, &mut made.octets)?;
    }
    Some(())
}

/// Reads a response's head of 8 fields.
pub(crate) fn read_small(alloc: Global, rounds: u32, made: &mut Made) -> Option<()> {
    for _ in 0..rounds {
        made.clear();
        read_one(alloc, SMALL_HEAD, &mut made.pieces)?;
    }
    Some(())
}

/// Reads a response's head of 30 fields.
pub(crate) fn read_large(alloc: Global, rounds: u32, made: &mut Made) -> Option<()> {
    for _ in 0..rounds {
        made.clear();
        read_one(alloc, LARGE_HEAD, &mut made.pieces)?;
    }
    Some(())
}
