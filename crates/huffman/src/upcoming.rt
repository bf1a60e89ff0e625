//! Bits that aren't decoded yet, with the next one on top.

ghost use Rattle.std.specs.Prelude.{◌≡◌, ◌+◌, ◌-◌, ◌/◌, ◌^◌, ◌≤◌, [], ◌∷◌, ◌++◌};
ghost use Rattle.model.specs.Huffman.{bits, octet_bits};
ghost use Rattle.huffman.specs.Upcoming.{IsAligned, upcoming_bits};

/// Bits that wait: so many high bits of a number of 64, below which it has zeros.
#[derive(Clone, Copy)]
pub struct Upcoming {
    pub number: u64,
    pub width: u32,
}

/// No bits.
pub const NO_BITS: Upcoming = Upcoming {
    number: 0,
    width: 0,
};

/// The most bits that leave room for an octet.
const ROOM_FOR_OCTET: u32 = 56;

/// The most bits that leave room for four octets.
const ROOM_FOR_FOUR: u32 = 32;

/// The bits that wait, and those of an octet behind them.
pub fn and_octet(coming: Upcoming, octet: u8) -> Upcoming
    requires aligned { IsAligned coming }
    requires few { coming.width ≤ 56 }
    ensures aligned { IsAligned result }
    ensures width { result.width ≡ coming.width + 8 }
    ensures bits { upcoming_bits result ≡ upcoming_bits coming ++ bits 8 octet }
{
    Upcoming {
        number: coming.number + (u64::from(octet) << (ROOM_FOR_OCTET - coming.width)),
        width: coming.width + 8,
    }
}

/// The bits that wait, and those of four octets behind them.
pub fn and_four(coming: Upcoming, first: u8, second: u8, third: u8, fourth: u8) -> Upcoming
    requires aligned { IsAligned coming }
    requires few { coming.width ≤ 32 }
    ensures aligned { IsAligned result }
    ensures bits { upcoming_bits result ≡ upcoming_bits coming ++ octet_bits (first ∷ second ∷ third ∷ fourth ∷ []) }
{
    let front = u32::from(first) * 256 + u32::from(second);
    let word = (front * 256 + u32::from(third)) * 256 + u32::from(fourth);
    Upcoming {
        number: coming.number + (u64::from(word) << (ROOM_FOR_FOUR - coming.width)),
        width: coming.width + 32,
    }
}

/// The bits that wait behind the first so many.
pub fn past(coming: Upcoming, width: u32) -> Upcoming
    requires aligned { IsAligned coming }
    requires short { width ≤ 30 }
    requires within { width ≤ coming.width }
    ensures aligned { IsAligned result }
    ensures width { result.width + width ≡ coming.width }
    ensures bits { upcoming_bits coming ≡ bits width (coming.number / 2 ^ (64 - width)) ++ upcoming_bits result }
{
    Upcoming {
        number: coming.number << width,
        width: coming.width - width,
    }
}
