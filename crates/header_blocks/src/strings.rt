//! Integers and strings at the front of octets.

ghost use Rattle.std.specs.Prelude.{◌≡◌, ◌≤◌, ℕ, List, IfErr, IfOk, OnErr};
ghost use Rattle.hpack_int.specs.Reading.{ReadsValue};
ghost use Rattle.model.specs.Huffman.{Huff};
ghost use Rattle.model.specs.Integers.{BeginsNoInt};
ghost use Rattle.header_blocks.specs.Represented.{BeginsNoString, TakesString, UnlessMemory};
ghost use Rattle.header_blocks.specs.Faults.{IsIntFault, IsStringFault};
ghost use Rattle.header_blocks.specs.declared.fault.DecodeFault.TheVariants.{Text};

use crate::fault::DecodeFault;
use hpack_int::{IntRead, read};
use huffman::{HuffFault, decode};
use std::alloc::Global;

/// The integer at the front of octets, with a prefix of 1 to 8 bits, and how many octets it takes.
pub fn take_int(prefix: u8, octets: &[u8]) -> Result<(u32, usize), DecodeFault>
    requires some { 1 ≤ prefix }
    requires most { prefix ≤ 8 }
    ensures taken { IfOk result (λ p. ReadsValue prefix octets.now p.0 p.1) }
    ensures none { OnErr result (BeginsNoInt prefix octets.now) }
    ensures fault { IfErr result (IsIntFault prefix octets.now) }
{
    match read(prefix, octets) {
        IntRead::Value(value, used) => Ok((value, used)),
        IntRead::More => Err(DecodeFault::Cut),
        IntRead::Bad => Err(DecodeFault::Integer),
    }
}

/// The string of Huffman text.
fn huffman_string(alloc: Global, text: &[u8]) -> Result<Vec<u8>, DecodeFault>
    ensures decoded { IfOk result (λ string. Huff text.now string.items) }
    ensures none { IfErr result (λ fault. UnlessMemory fault ((string : List ℕ) → Huff text.now string → ⊥)) }
    ensures fault { IfErr result (λ fault. UnlessMemory fault (fault ≡ Text)) }
{
    let mut string = Vec::new(alloc);
    match decode(text, &mut string) {
        Ok(()) => Ok(string),
        Err(HuffFault::Eos) => Err(DecodeFault::Text),
        Err(HuffFault::Padding) => Err(DecodeFault::Text),
        Err(HuffFault::Memory) => Err(DecodeFault::Memory),
    }
}

/// The string at the front of octets, and how many octets it takes (RFC 7541, section 5.2).
pub fn take_string(alloc: Global, octets: &[u8]) -> Result<(Vec<u8>, usize), DecodeFault>
    ensures taken { IfOk result (λ p. TakesString octets.now p.0.items p.1) }
    ensures none { IfErr result (λ fault. UnlessMemory fault (BeginsNoString octets.now)) }
    ensures fault { IfErr result (λ fault. UnlessMemory fault (IsStringFault octets.now fault)) }
{
    let (number, start) = take_int(7, octets)?;
    let number = number as usize;
    let rest = &octets[start..];
    if rest.len() < number {
        return Err(DecodeFault::Cut);
    }
    let text = &rest[..number];
    let string = if octets[0] >= 128 {
        huffman_string(alloc, text)?
    } else {
        Vec::from_slice(alloc, text)?
    };
    Ok((string, start + number))
}
