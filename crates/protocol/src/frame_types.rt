//! The types of frames (RFC 9113, section 6).

/// RFC 9113, section 6.1.
pub const DATA: u8 = 0;

/// RFC 9113, section 6.2.
pub const HEADERS: u8 = 1;

/// RFC 9113, section 6.3.
pub const PRIORITY: u8 = 2;

/// RFC 9113, section 6.4.
pub const RST_STREAM: u8 = 3;

/// RFC 9113, section 6.5.
pub const SETTINGS: u8 = 4;

/// RFC 9113, section 6.6.
pub const PUSH_PROMISE: u8 = 5;

/// RFC 9113, section 6.7.
pub const PING: u8 = 6;

/// RFC 9113, section 6.8.
pub const GOAWAY: u8 = 7;

/// RFC 9113, section 6.9.
pub const WINDOW_UPDATE: u8 = 8;

/// RFC 9113, section 6.10.
pub const CONTINUATION: u8 = 9;
