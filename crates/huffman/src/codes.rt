//! The code at the front of bits. The code is complete: whatever 30 bits there are, one code begins
//! them. So bits that wait are filled up with zeros, and what begins these is looked up: a code of
//! at most eight bits by its first eight, at one step, and a longer one by the 17 widths that it
//! may have.

ghost use Rattle.std.specs.Prelude.{◌≡◌, ◌*◌, ◌^◌, ◌<◌, ◌≤◌, nat_lt, slice_get, IfSome, IfNone};
ghost use Rattle.std.specs.List.{find};
ghost use Rattle.huffman.specs.Fronts.{IsFront, IsUnended, IsWholeFront, symbol_of};
ghost use Rattle.huffman.specs.Upcoming.{IsAligned};

use crate::long_codes::{OCTETS, ROWS};
use crate::short_codes::SHORT;
use crate::upcoming::Upcoming;

/// What a code stands for.
#[derive(Clone, Copy)]
pub enum Symbol {
    /// An octet.
    Octet(u8),
    /// The end of a string.
    End,
}

/// A code: what it stands for, and its number of bits.
#[derive(Clone, Copy)]
pub struct Code {
    pub symbol: Symbol,
    pub width: u32,
}

/// The bits by which a code is looked up, the 30 of the longest among them.
const FRONT: u32 = 38;

/// The code that bits begin with, or None where they don't begin with a code.
pub fn next_code(waiting: Upcoming) -> Option<Code>
    requires { IsAligned waiting }
    ensures some { IfSome result (λ code. IsWholeFront waiting code) }
    ensures none { IfNone result (IsUnended waiting) }
{
    let code = code_at(waiting.number >> (64 - FRONT));
    if code.width <= waiting.width {
        Some(code)
    } else {
        None
    }
}

/// The code that a window begins with.
fn code_at(window: u64) -> Code
    requires { window < 2 ^ 38 }
    ensures { IsFront 38 window result }
{
    match entry_at(&SHORT, window >> 30) {
        Some((octet, width)) => Code {
            symbol: Symbol::Octet(octet),
            width,
        },
        None => long_code_at(window),
    }
}

/// The entry at a place.
fn entry_at(entries: &[(u8, u32)], place: u64) -> Option<(u8, u32)>
    ensures { result ≡ slice_get entries.now place }
{
    entries.get(place as usize).copied()
}

/// The code of more than eight bits that a window begins with.
fn long_code_at(window: u64) -> Code
    requires least { 254 * 2 ^ 30 ≤ window }
    requires most { window < 2 ^ 38 }
    ensures { IsFront 38 window result }
{
    let Some((width, _, lead)) = row_at(&ROWS, window) else {
        unreachable!();
    };
    let place = (window >> (FRONT - width)) - lead;
    Code {
        symbol: symbol_at(&OCTETS, place),
        width,
    }
}

/// The first row whose windows reach past this one.
fn row_at(rows: &[(u32, u64, u64)], window: u64) -> Option<(u32, u64, u64)>
    ensures { result ≡ find (λ row. nat_lt window row.1) rows.now }
{
    for row in rows {
        if window < row.1 {
            return Some(*row);
        }
    }
    None
}

/// What the code at a place stands for: an octet, or behind them the end.
fn symbol_at(octets: &[u8], place: u64) -> Symbol
    ensures { result ≡ symbol_of (slice_get octets.now place) }
{
    match octets.get(place as usize) {
        Some(octet) => Symbol::Octet(*octet),
        None => Symbol::End,
    }
}
