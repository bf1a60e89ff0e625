//! The flags of frames, each the value of its bit (RFC 9113, section 6).

/// Of SETTINGS and PING (RFC 9113, sections 6.5 and 6.7).
pub const ACK: u8 = 1;

/// Of DATA and HEADERS (RFC 9113, sections 6.1 and 6.2).
pub const END_STREAM: u8 = 1;

/// Of HEADERS and CONTINUATION (RFC 9113, sections 6.2 and 6.10).
pub const END_HEADERS: u8 = 4;

/// Of DATA and HEADERS (RFC 9113, sections 6.1 and 6.2).
pub const PADDED: u8 = 8;

/// Of HEADERS (RFC 9113, section 6.2), where the RFC names it PRIORITY.
pub const PRIORITY_FLAG: u8 = 32;

/// The bit above a stream's number and above an increment, which is ignored (RFC 9113, sections 4.1 and 6.9).
pub const RESERVED_BIT: u32 = 2147483648;
