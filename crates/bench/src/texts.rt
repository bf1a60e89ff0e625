//! Huffman text.

use crate::made::Made;
use crate::samples::TEXT;
use std::alloc::Global;

/// Decodes Huffman text of 175 octets.
pub(crate) fn decode(alloc: Global, rounds: u32, made: &mut Made) -> Option<()> {
    let mut text = Vec::new(alloc);
    huffman::encode(TEXT, &mut text).ok()?;
    for _ in 0..rounds {
        made.clear();
        huffman::decode(&text, &mut made.octets).ok()?;
    }
    Some(())
}

/// Encodes a text of 175 octets.
pub(crate) fn encode(_alloc: Global, rounds: u32, made: &mut Made) -> Option<()> {
    for _ in 0..rounds {
        made.clear();
        huffman::encode(TEXT, &mut made.octets).ok()?;
    }
    Some(())
}
