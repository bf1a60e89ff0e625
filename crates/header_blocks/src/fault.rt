//! Why a block can't be decoded.

ghost use Rattle.std.specs.Prelude.{◌≡◌};
ghost use Rattle.header_blocks.specs.declared.fault.DecodeFault.TheVariants.{Memory};

use std::alloc::{AllocError, AllocFailed};

/// Why a block can't be decoded, by the first place that can't be read.
#[derive(Clone, Copy, PartialEq, Eq, Debug)]
pub enum DecodeFault {
    /// An integer of more than five octets behind its prefix, or over 4,294,967,295.
    Integer,
    /// Huffman text that has the code of the end, or bad padding.
    Text,
    /// An index without an entry.
    Index,
    /// A maximum over 4,096.
    Maximum,
    /// A maximum behind a field.
    Late,
    /// The block ends within a representation.
    Cut,
    /// Memory was refused.
    Memory,
}

impl From<AllocError> for DecodeFault {
    ghost from_gives = { λ _ fault. fault ≡ Memory };

    fn from(_error: AllocError) -> DecodeFault {
        DecodeFault::Memory
    }
}

impl<T: Drop> From<AllocFailed<T>> for DecodeFault {
    ghost from_gives = { λ _ fault. fault ≡ Memory };

    fn from(_error: AllocFailed<T>) -> DecodeFault {
        DecodeFault::Memory
    }
}
