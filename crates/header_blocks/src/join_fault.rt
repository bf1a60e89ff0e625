//! Why a frame may not come next.

/// Why a frame may not come next, or not with so many octets (RFC 9113, section 4.3).
#[derive(Clone, Copy, PartialEq, Eq, Debug)]
pub enum JoinFault {
    /// A CONTINUATION comes outside a block.
    Outside,
    /// Inside a block comes a frame other than a CONTINUATION of its stream.
    Between,
    /// The block passes 65,536 octets, or 64 CONTINUATION frames.
    TooLong,
}
