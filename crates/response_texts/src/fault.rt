//! Why a response is refused.

ghost use Rattle.std.specs.Prelude.{◌≡◌};
ghost use Rattle.response_texts.specs.declared.fault.ResponseFault.TheVariants.{Memory};

use std::alloc::AllocError;

/// Why no whole response comes any more.
#[derive(Clone, Copy, PartialEq, Eq, Debug, Drop)]
pub enum ResponseFault {
    /// What stands there is no head, or one that is refused (RFC 9112, sections 4 and 5; this project's profile).
    Head,
    /// A head or a trailer section of over 16,384 octets, or a ninth interim head (this project's profile).
    TooLong,
    /// A content-length that isn't 1 to 18 digits, or two that differ (RFC 9112, section 6.3).
    Length,
    /// A transfer coding that isn't taken (RFC 9112, sections 6.1 and 6.3).
    Coding,
    /// The protocol is changed, for which nobody asked (RFC 9110, section 15.2.2).
    Upgrade,
    /// A body in chunks that can't be continued: a chunk's line or end, or trailers that are
    /// refused (RFC 9112, section 7.1; this project's profile).
    Chunk,
    /// Memory was refused.
    Memory,
}

impl From<AllocError> for ResponseFault {
    ghost from_gives = { λ _ fault. fault ≡ Memory };

    fn from(_error: AllocError) -> ResponseFault {
        ResponseFault::Memory
    }
}
