//! Slow programs of the definition, with which the tests compare: they walk the set of codes for each symbol, and share
//! nothing with the crate's code. They take at most 64 bits.

use super::printed_codes::{CODES, END};
use huffman::HuffFault;

/// Bits: so many low bits of a number.
#[derive(Clone, Copy, PartialEq, Eq)]
pub struct Bits {
    number: u64,
    width: u32,
}

const NONE: Bits = Bits {
    number: 0,
    width: 0,
};

/// Adds the string of Huffman text: the longest run of codes of octets, behind which padding stands.
pub(crate) fn plain_decode(octets: &[u8], out: &mut Vec<u8>) -> Result<(), HuffFault> {
    let mut left = bits_of(octets);
    for _ in 0..64u8 {
        let Some((octet, rest)) = first_code(&CODES, left) else {
            break;
        };
        out.push(octet)?;
        left = rest;
    }
    let (number, width) = END;
    if behind(left, number, width).is_some() {
        Err(HuffFault::Eos)
    } else if is_padding(left) {
        Ok(())
    } else {
        Err(HuffFault::Padding)
    }
}

/// The bits of a string's Huffman text: its codes, and ones up to a whole octet.
pub(crate) fn plain_text(string: &[u8]) -> Bits {
    let mut bits = NONE;
    for octet in string {
        let (number, width) = code_of(&CODES, *octet);
        bits = joined(bits, number, width);
    }
    for _ in 0..7u8 {
        if bits.width % 8 != 0 {
            bits = joined(bits, 1, 1);
        }
    }
    bits
}

/// The bits of octets.
pub(crate) fn bits_of(octets: &[u8]) -> Bits {
    let mut bits = NONE;
    for octet in octets {
        bits = joined(bits, u64::from(*octet), 8);
    }
    bits
}

/// Bits, and others behind them.
fn joined(bits: Bits, number: u64, width: u32) -> Bits {
    Bits {
        number: bits.number.wrapping_shl(width) | number,
        width: bits.width.saturating_add(width),
    }
}

/// The code of an octet.
fn code_of(codes: &[(u8, u64, u32)], octet: u8) -> (u64, u32) {
    for (symbol, number, width) in codes {
        if *symbol == octet {
            return (*number, *width);
        }
    }
    END
}

/// The octet whose code bits begin with, and the bits behind it.
fn first_code(codes: &[(u8, u64, u32)], bits: Bits) -> Option<(u8, Bits)> {
    for (octet, number, width) in codes {
        if *width > bits.width {
            break;
        }
        if let Some(rest) = behind(bits, *number, *width) {
            return Some((*octet, rest));
        }
    }
    None
}

/// The bits behind a code, where they begin with it.
fn behind(bits: Bits, number: u64, width: u32) -> Option<Bits> {
    let rest = bits.width.checked_sub(width)?;
    if bits.number.checked_shr(rest)? != number {
        return None;
    }
    Some(Bits {
        number: bits.number ^ number.checked_shl(rest)?,
        width: rest,
    })
}

/// Whether bits are fewer than eight ones.
fn is_padding(bits: Bits) -> bool {
    match [0, 1, 3, 7, 15, 31, 63, 127].get(bits.width as usize) {
        Some(ones) => bits.number == *ones,
        None => false,
    }
}
