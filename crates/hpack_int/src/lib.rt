//! Integers of HPACK (RFC 7541, section 5.1): a prefix of some bits of an octet, and groups of
//! seven bits where the value doesn't fit it.
#![tactic(auto)]

ghost use Rattle.std.specs.Prelude.{◌≡◌, ℕ, ◌+◌, ◌-◌, ◌/◌, ◌%◌, ◌^◌, ◌<◌, ◌≤◌, List, length, vec_len, vec_capacity, OnOk, OnErr};
ghost use Rattle.hpack_int.specs.Reading.{Reads, ReadsGroups};
ghost use Rattle.hpack_int.specs.Writing.{IsShortestInt, Writes, AreGroupsOf};

use std::alloc::AllocError;

/// What stands at the front of octets.
#[derive(Clone, Copy, PartialEq, Eq, Debug)]
pub enum IntRead {
    /// A value, and how many octets its text takes.
    Value(u32, usize),
    /// A text that isn't whole yet.
    More,
    /// Nothing that becomes a text of at most five octets behind the prefix and of a value of at most 4,294,967,295.
    Bad,
}

/// The most octets behind the prefix (this project's profile).
const MOST_GROUPS: usize = 5;

/// The greatest value (this project's profile).
const GREATEST: u64 = 4294967295;

/// The integer at the front of octets, with a prefix of 1 to 8 bits (RFC 7541, section 5.1). The bits above the prefix
/// don't matter.
pub fn read(prefix: u8, octets: &[u8]) -> IntRead
    requires some { 1 ≤ prefix }
    requires most { prefix ≤ 8 }
    ensures { Reads prefix octets.now result }
{
    let [first, groups @ ..] = octets else {
        return IntRead::More;
    };
    let ones = (1u64 << prefix) - 1;
    let low_bits = u64::from(*first) % (ones + 1);
    if low_bits < ones {
        return IntRead::Value(low_bits as u32, 1);
    }
    read_groups(ones, groups)
}

/// The value whose part above the prefix stands in groups, where the prefix is all ones.
fn read_groups(ones: u64, groups: &[u8]) -> IntRead
    requires { ones ≤ 255 }
    ensures { ReadsGroups ones groups.now result }
{
    let mut value = ones;
    let mut weight = 1u64;
    for place in 0..MOST_GROUPS {
        let Some(group) = groups.get(place) else {
            return IntRead::More;
        };
        value += u64::from(*group % 128) * weight;
        if value > GREATEST {
            return IntRead::Bad;
        }
        if *group < 128 {
            return IntRead::Value(value as u32, place + 2);
        }
        weight *= 128;
    }
    IntRead::Bad
}

/// Writes the shortest text of a value at the end, with a prefix of 1 to 8 bits and `high` above it (RFC 7541, section
/// 5.1). An `Err` says that memory was refused, and leaves the octets as they were.
#[inline]
pub fn write(prefix: u8, high: u8, value: u32, out: &mut Vec<u8>) -> Result<(), AllocError>
    requires some { 1 ≤ prefix }
    requires most { prefix ≤ 8 }
    requires no_bit { high % 2 ^ prefix ≡ 0 }
    ensures ok { OnOk result (Writes prefix high value out.old.items out.new.items) }
    ensures err { OnErr result (out.new.items ≡ out.old.items) }

    // It fails only where the vector had to grow.
    ensures full { OnErr result ((text : List ℕ) → IsShortestInt prefix (high / 2 ^ prefix) text value
        → vec_capacity out.old < vec_len out.old + length text) }
{
    let ones = (1u32 << prefix) - 1;
    if value < ones {
        out.push(high + value as u8)?;
        return Ok(());
    }
    write_groups(prefix, high, value, out)
}

/// Writes the shortest text of a value that doesn't fit the prefix.
fn write_groups(prefix: u8, high: u8, value: u32, out: &mut Vec<u8>) -> Result<(), AllocError>
    requires some { 1 ≤ prefix }
    requires most { prefix ≤ 8 }
    requires no_bit { high % 2 ^ prefix ≡ 0 }
    requires large { 2 ^ prefix - 1 ≤ value }
    ensures ok { OnOk result (Writes prefix high value out.old.items out.new.items) }
    ensures err { OnErr result (out.new.items ≡ out.old.items) }
    ensures full { OnErr result ((text : List ℕ) → IsShortestInt prefix (high / 2 ^ prefix) text value
        → vec_capacity out.old < vec_len out.old + length text) }
{
    let ones = (1u32 << prefix) - 1;
    let (groups, count) = groups_of(value - ones);
    let mut text = [high + ones as u8, 0, 0, 0, 0, 0];
    text[1..].copy_from_slice(&groups);
    out.extend_from_slice(&text[..count + 1])
}

/// The fewest groups of a value, and their number; what stands behind them in the array is 0.
fn groups_of(value: u32) -> ([u8; MOST_GROUPS], usize)
    ensures { AreGroupsOf value result.0 result.1 }
{
    let mut groups = [0; MOST_GROUPS];
    let mut count = 0;
    let mut rest = value;
    while rest >= 128 {
        groups[count] = (rest % 128) as u8 + 128;
        rest /= 128;
        count += 1;
    }
    groups[count] = rest as u8;
    (groups, count + 1)
}
