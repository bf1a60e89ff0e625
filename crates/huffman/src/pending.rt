//! Bits that aren't taken yet.

ghost use Rattle.std.specs.Prelude.{◌≡◌, ◌+◌, ◌/◌, ◌^◌, ◌<◌, ◌≤◌, ◌++◌};
ghost use Rattle.model.specs.Huffman.{bits};
ghost use Rattle.huffman.specs.Encoding.{word_bits};
ghost use Rattle.huffman.specs.Waiting.{pending_bits};

use crate::words::BitWord;

/// Bits that wait: so many low bits of a number.
#[derive(Clone, Copy)]
pub struct Pending {
    pub number: u64,
    pub width: u32,
}

/// No bits.
pub const NOTHING: Pending = Pending {
    number: 0,
    width: 0,
};

/// The bits that wait, and those of a word behind them.
pub fn append(pending: Pending, word: BitWord) -> Pending
    requires waiting { pending.number < 2 ^ pending.width }
    requires few { pending.width < 32 }
    requires word { word.number < 2 ^ word.width }
    requires wide { word.width ≤ 30 }
    ensures number { result.number < 2 ^ result.width }
    ensures width { result.width ≡ pending.width + word.width }
    ensures bits { pending_bits result ≡ pending_bits pending ++ word_bits word }
{
    Pending {
        number: (pending.number << word.width) + u64::from(word.number),
        width: pending.width + u32::from(word.width),
    }
}

/// The bits that wait behind the first so many.
pub fn behind(pending: Pending, width: u32) -> Pending
    requires waiting { pending.number < 2 ^ pending.width }
    requires few { pending.width < 62 }
    requires within { width ≤ pending.width }
    ensures number { result.number < 2 ^ result.width }
    ensures width { result.width + width ≡ pending.width }
    ensures bits { pending_bits pending ≡ bits width (pending.number / 2 ^ result.width) ++ pending_bits result }
{
    let rest = pending.width - width;
    Pending {
        number: pending.number % (1 << rest),
        width: rest,
    }
}
