//! Encoding.

ghost use Rattle.std.specs.Prelude.{◌≡◌, ◌+◌, ◌*◌, ◌^◌, ◌<◌, ◌≤◌, ℕ, List, length, vec_len, vec_capacity, IfOk, OnOk, OnErr};
ghost use Rattle.model.specs.Huffman.{Huff};
ghost use Rattle.huffman.specs.Decoding.{Adds};
ghost use Rattle.huffman.specs.Encoding.{Encodes};
ghost use Rattle.huffman.specs.Waiting.{Flushes, IsPadded, IsPending};

use crate::pending::{NOTHING, Pending, append, behind};
use crate::words::word_of;
use std::alloc::AllocError;

/// The number of octets of a string's Huffman text (RFC 7541, section 5.2). A string has at most 65,536 octets.
pub fn encoded_len(string: &[u8]) -> usize
    requires { length string.now ≤ 65536 }
    ensures { (text : List ℕ) → Huff text string.now → length text ≡ result }
{
    let mut bits = 0usize;
    for octet in string {
        bits += word_of(*octet).width as usize;
    }
    (bits + 7) / 8
}

/// Adds the Huffman text of a string of at most 65,536 octets (RFC 7541, section 5.2). An `Err`
/// says that memory was refused, and leaves the octets of `out` as they were.
pub fn encode(string: &[u8], out: &mut Vec<u8>) -> Result<(), AllocError>
    requires { length string.now ≤ 65536 }
    ensures ok { OnOk result (Encodes string.now out.old.items out.new.items) }
    ensures err { OnErr result (out.new.items ≡ out.old.items) }

    // It fails only where the vector had to grow: no code has more than 30 bits.
    ensures full { OnErr result (vec_capacity out.old < vec_len out.old + 4 * length string.now) }
{
    out.reserve(string.len())?;
    let start = out.len();
    let result = encode_onto(string, out);
    if result.is_err() {
        out.truncate(start);
    }
    result
}

/// Adds the Huffman text of a string, or a part of it where memory is refused.
fn encode_onto(string: &[u8], out: &mut Vec<u8>) -> Result<(), AllocError>
    ensures ok { OnOk result (Encodes string.now out.old.items out.new.items) }
    ensures err { OnErr result (Adds out.old.items out.new.items) }
    ensures full { OnErr result (8 * vec_capacity out.old < 8 * vec_len out.old + 30 * length string.now) }
{
    let mut pending = NOTHING;
    for octet in string {
        pending = put_four(append(pending, word_of(*octet)), out)?;
    }
    let last = put_octets(pending, out)?;
    if last.width > 0 {
        out.push(padded(last))?;
    }
    Ok(())
}

/// Adds the first four octets of bits that wait, where they are as many.
fn put_four(all: Pending, out: &mut Vec<u8>) -> Result<Pending, AllocError>
    requires number { all.number < 2 ^ all.width }
    requires wide { all.width < 62 }
    ensures ok { IfOk result (λ rest. Flushes all rest out.old.items out.new.items) }
    ensures few { IfOk result (λ rest. rest.width < 32) }
    ensures err { OnErr result (Adds out.old.items out.new.items) }
    ensures room { IfOk result (λ rest. 8 * vec_len out.new + rest.width ≡ 8 * vec_len out.old + all.width) }
    ensures capacity { vec_capacity out.old ≤ vec_capacity out.new }
    ensures full { OnErr result (8 * vec_capacity out.old < 8 * vec_len out.old + all.width) }
{
    if all.width < 32 {
        return Ok(all);
    }
    let rest = behind(all, 32);
    let first = (all.number >> rest.width) as u32;
    out.extend_from_slice(&first.to_be_bytes())?;
    Ok(rest)
}

/// Adds the whole octets of bits that wait.
fn put_octets(all: Pending, out: &mut Vec<u8>) -> Result<Pending, AllocError>
    requires number { all.number < 2 ^ all.width }
    requires wide { all.width < 32 }
    ensures ok { IfOk result (λ rest. Flushes all rest out.old.items out.new.items) }
    ensures few { IfOk result (λ rest. rest.width < 8) }
    ensures err { OnErr result (Adds out.old.items out.new.items) }
    ensures room { IfOk result (λ rest. 8 * vec_len out.new + rest.width ≡ 8 * vec_len out.old + all.width) }
    ensures capacity { vec_capacity out.old ≤ vec_capacity out.new }
    ensures full { OnErr result (8 * vec_capacity out.old < 8 * vec_len out.old + all.width) }
{
    let mut rest = all;
    while rest.width >= 8 {
        out.push((rest.number >> (rest.width - 8)) as u8)?;
        rest = behind(rest, 8);
    }
    Ok(rest)
}

/// The octet of the bits that wait, filled with ones.
fn padded(pending: Pending) -> u8
    requires waiting { IsPending pending }
    ensures { IsPadded pending result }
{
    let room = 8 - pending.width;
    ((pending.number << room) + (1 << room) - 1) as u8
}
