//! A frame by its type (RFC 9113, section 6).

/// What a frame says, without padding, priority octets and reserved bits.
#[derive(Clone, Copy, Debug, PartialEq, Eq)]
pub enum Frame<'a> {
    /// The octets of DATA (RFC 9113, section 6.1).
    Data(&'a [u8]),
    /// The first fragment of a header block, of HEADERS (RFC 9113, section 6.2).
    Headers(&'a [u8]),
    /// An error code (RFC 9113, sections 6.4 and 7).
    RstStream(u32),
    /// The entries of SETTINGS, six octets each; none with ACK (RFC 9113, section 6.5).
    Settings(&'a [u8]),
    /// The eight octets of PING (RFC 9113, section 6.7).
    Ping(&'a [u8]),
    /// An increment in octets, perhaps 0 (RFC 9113, section 6.9).
    WindowUpdate(u32),
    /// A further fragment of a header block (RFC 9113, section 6.10).
    Continuation(&'a [u8]),
    /// PRIORITY, PUSH_PROMISE, GOAWAY, or a type that isn't known.
    Other,
}

/// What is wrong with a frame's payload.
#[derive(Clone, Copy, Debug, PartialEq, Eq)]
pub enum FrameFault {
    /// Its length isn't one that the type allows: FRAME_SIZE_ERROR (RFC 9113, section 4.2).
    Size,
    /// Its padding is longer than what is left for it: PROTOCOL_ERROR (RFC 9113, sections 6.1 and 6.2).
    Protocol,
}
