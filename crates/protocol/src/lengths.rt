//! How many octets headers, payloads and their parts have (RFC 9113, sections 4.1 and 6).

/// A frame's header, which stands before each payload (RFC 9113, section 4.1).
pub const FRAME_HEADER: usize = 9;

/// The pad length with which the payload of a padded DATA or HEADERS begins (RFC 9113, sections 6.1 and 6.2).
pub const PAD_LENGTH: usize = 1;

/// The dependency and the weight of a stream, in PRIORITY and HEADERS (RFC 9113, sections 6.2 and 6.3).
pub const PRIORITY: usize = 5;

/// The payload of RST_STREAM (RFC 9113, section 6.4).
pub const RST_STREAM: usize = 4;

/// A setting, its identifier and its value, in SETTINGS (RFC 9113, section 6.5.1).
pub const SETTING: usize = 6;

/// The payload of PING (RFC 9113, section 6.7).
pub const PING: usize = 8;

/// The payload of GOAWAY without its debug data (RFC 9113, section 6.8).
pub const GOAWAY: usize = 8;

/// The payload of WINDOW_UPDATE (RFC 9113, section 6.9).
pub const WINDOW_UPDATE: usize = 4;
