//! Decoding: a whole code at a step, off the front of the bits that wait.

ghost use Rattle.std.specs.Prelude.{◌≡◌, ◌≤◌, [], IfOk, IfErr, IfSome, IfNone, OnOk, OnErr};
ghost use Rattle.std.specs.Bool.{OnTrue, OnFalse};
ghost use Rattle.huffman.specs.Decoding.{Adds, Decodes, IsFaultOf, IsPadding};
ghost use Rattle.huffman.specs.Fronts.{IsUnended};
ghost use Rattle.huffman.specs.Taking.{Joins, Stops, Takes};
ghost use Rattle.huffman.specs.Upcoming.{IsAligned, upcoming_bits};
ghost use Rattle.huffman.specs.declared.decoder.HuffFault.TheVariants.{Memory};

use crate::codes::{Symbol, next_code};
use crate::upcoming::{NO_BITS, Upcoming, and_four, and_octet, past};
use std::alloc::{AllocError, AllocFailed};

/// Why octets aren't Huffman text.
#[derive(Clone, Copy, PartialEq, Eq, Debug)]
pub enum HuffFault {
    /// The code that ends a string stands as a code.
    Eos,
    /// What is left behind the codes isn't fewer than eight ones.
    Padding,
    /// Memory was refused.
    Memory,
}

impl From<AllocError> for HuffFault {
    ghost from_gives = { λ _ fault. fault ≡ Memory };

    fn from(_error: AllocError) -> HuffFault {
        HuffFault::Memory
    }
}

impl From<AllocFailed<u8>> for HuffFault {
    ghost from_gives = { λ _ fault. fault ≡ Memory };

    fn from(_error: AllocFailed<u8>) -> HuffFault {
        HuffFault::Memory
    }
}

/// The most ones behind the codes.
const MOST_PADDING: u32 = 7;

/// Adds the string of Huffman text (RFC 7541, section 5.2). An `Err` leaves the octets of `out` as they were.
pub fn decode(octets: &[u8], out: &mut Vec<u8>) -> Result<(), HuffFault>
    ensures ok { OnOk result (Decodes octets.now out.old.items out.new.items) }
    ensures fault { IfErr result (λ fault. IsFaultOf octets.now fault) }
    ensures err { OnErr result (out.new.items ≡ out.old.items) }
{
    out.reserve(octets.len() / 5 * 8 + 8)?;
    let start = out.len();
    let result = decode_onto(octets, out);
    if result.is_err() {
        out.truncate(start);
    }
    result
}

/// Adds the string of Huffman text, or what is read of it before a fault.
fn decode_onto(octets: &[u8], out: &mut Vec<u8>) -> Result<(), HuffFault>
    ensures ok { OnOk result (Decodes octets.now out.old.items out.new.items) }
    ensures fault { IfErr result (λ fault. IsFaultOf octets.now fault) }
    ensures err { OnErr result (Adds out.old.items out.new.items) }
{
    let mut coming = NO_BITS;
    let mut left = octets;
    while let Some((all, more)) = with_next(coming, left) {
        coming = take_codes(all, out)?;
        left = more;
    }
    if is_padding(coming) {
        Ok(())
    } else {
        Err(HuffFault::Padding)
    }
}

/// The bits that wait and those of the next octets behind them, of four where there are so many; and the octets behind.
fn with_next(coming: Upcoming, octets: &[u8]) -> Option<(Upcoming, &[u8])>
    requires aligned { IsAligned coming }
    requires few { coming.width ≤ 32 }
    ensures some { IfSome result (λ p. Joins coming octets.now p.0 p.1.now) }
    ensures none { IfNone result (octets.now ≡ []) }
{
    match octets {
        [first, second, third, fourth, more @ ..] => {
            let all = and_four(coming, *first, *second, *third, *fourth);
            Some((all, more))
        }
        [octet, more @ ..] => Some((and_octet(coming, *octet), more)),
        [] => None,
    }
}

/// Takes all codes that bits begin with off them, and adds their octets.
fn take_codes(all: Upcoming, out: &mut Vec<u8>) -> Result<Upcoming, HuffFault>
    requires { IsAligned all }
    ensures ok { IfOk result (λ rest. Takes all rest out.old.items out.new.items × IsUnended rest) }
    ensures stops { IfErr result (λ fault. Stops all out.old.items out.new.items fault) }
{
    let mut rest = all;
    while let Some(code) = next_code(rest) {
        let Symbol::Octet(octet) = code.symbol else {
            return Err(HuffFault::Eos);
        };
        out.push(octet)?;
        rest = past(rest, code.width);
    }
    Ok(rest)
}

/// Whether bits are fewer than eight ones.
fn is_padding(left: Upcoming) -> bool
    requires { IsAligned left }
    ensures yes { OnTrue result (IsPadding (upcoming_bits left)) }
    ensures no { OnFalse result (IsPadding (upcoming_bits left) → ⊥) }
{
    left.width <= MOST_PADDING && left.number >> 1 >> (63 - left.width) == (1 << left.width) - 1
}
