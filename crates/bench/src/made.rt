//! What a round makes.

use h1_reader::Piece;
use hpack_table::Field;
use std::alloc::Global;

/// Octets, fields and pieces of responses.
#[derive(Drop)]
pub struct Made {
    pub octets: Vec<u8>,
    pub fields: Vec<Field>,
    pub pieces: Vec<Piece>,
}

impl Made {
    /// Nothing.
    pub(crate) fn new(alloc: Global) -> Self {
        Made {
            octets: Vec::new(alloc),
            fields: Vec::new(alloc),
            pieces: Vec::new(alloc),
        }
    }

    /// Drops all, and keeps the room.
    pub(crate) fn clear(&mut self) {
        self.octets.clear();
        self.fields.clear();
        self.pieces.clear();
    }

    /// The FNV-1a hash, of 64 bits, of the octets, then of the fields and of the pieces.
    pub(crate) fn checksum(&self) -> u64 {
        let sum = hash(0xcbf2_9ce4_8422_2325, &self.octets);
        hash_pieces(hash_fields(sum, &self.fields), &self.pieces)
    }
}

/// The hash with octets behind what was hashed.
fn hash(sum: u64, octets: &[u8]) -> u64 {
    let mut sum = sum;
    for octet in octets {
        sum = (sum ^ u64::from(*octet)).wrapping_mul(0x100_0000_01b3);
    }
    sum
}

/// The hash with the names and values of fields.
fn hash_fields(sum: u64, fields: &[Field]) -> u64 {
    let mut sum = sum;
    for field in fields {
        sum = hash(hash(sum, field.name()), field.value());
    }
    sum
}

/// The hash with the fields of heads and the octets of bodies.
fn hash_pieces(sum: u64, pieces: &[Piece]) -> u64 {
    let mut sum = sum;
    for piece in pieces {
        sum = match piece {
            Piece::Interim(head) | Piece::Head(head) => hash_fields(sum, head.fields()),
            Piece::Body(octets) => hash(sum, octets),
            Piece::Trailers(trailers) => hash_fields(sum, trailers.fields()),
            Piece::Done => sum,
        };
    }
    sum
}
