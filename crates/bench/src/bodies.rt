//! Responses with a body of 65,536 octets.

use crate::made::Made;
use h1_reader::{Piece, Reader};
use std::alloc::{AllocError, Global};

/// The octets that come at once.
static PIECE: [u8; 16384] = [b'x'; 16384];

/// Reads a response whose body of 65,536 octets has its length declared, and comes in pieces of 16,384.
pub(crate) fn read_sized(alloc: Global, rounds: u32, made: &mut Made) -> Option<()> {
    for _ in 0..rounds {
        made.clear();
        read_sized_once(alloc, &mut made.pieces)?;
    }
    Some(())
}

/// Reads the response with a declared length.
fn read_sized_once(alloc: Global, pieces: &mut Vec<Piece>) -> Option<()> {
    let mut reader = Reader::new(alloc, false);
    reader
        .feed(b"HTTP/1.1 200 OK\r\ncontent-length: 65536\r\n\r\n", pieces)
        .ok()?;
    for _ in 0..4u8 {
        reader.feed(&PIECE, pieces).ok()?;
    }
    Some(())
}

/// Reads a response whose body of 65,536 octets comes in chunks of 64, whose text comes in pieces of 16,384 octets.
pub(crate) fn read_chunked(alloc: Global, rounds: u32, made: &mut Made) -> Option<()> {
    let mut text = Vec::new(alloc);
    push_chunked(&mut text).ok()?;
    for _ in 0..rounds {
        made.clear();
        let mut reader = Reader::new(alloc, false);
        for piece in text.chunks(PIECE.len()) {
            reader.feed(piece, &mut made.pieces).ok()?;
        }
    }
    Some(())
}

/// Adds the response in chunks.
fn push_chunked(text: &mut Vec<u8>) -> Result<(), AllocError> {
    text.extend_from_slice(b"HTTP/1.1 200 OK\r\ntransfer-encoding: chunked\r\n\r\n")?;
    for _ in 0..1024u16 {
        text.extend_from_slice(b"40\r\n")?;
        text.extend_from_slice(&PIECE[..64])?;
        text.extend_from_slice(b"\r\n")?;
    }
    text.extend_from_slice(b"0\r\n\r\n")
}
