//! The identifiers of settings (RFC 9113, section 6.5.2).

/// SETTINGS_HEADER_TABLE_SIZE (RFC 9113, section 6.5.2).
pub const HEADER_TABLE_SIZE: u16 = 1;

/// SETTINGS_ENABLE_PUSH (RFC 9113, section 6.5.2).
pub const ENABLE_PUSH: u16 = 2;

/// SETTINGS_MAX_CONCURRENT_STREAMS (RFC 9113, section 6.5.2).
pub const MAX_CONCURRENT_STREAMS: u16 = 3;

/// SETTINGS_INITIAL_WINDOW_SIZE (RFC 9113, section 6.5.2).
pub const INITIAL_WINDOW_SIZE: u16 = 4;

/// SETTINGS_MAX_FRAME_SIZE (RFC 9113, section 6.5.2).
pub const MAX_FRAME_SIZE: u16 = 5;

/// SETTINGS_MAX_HEADER_LIST_SIZE (RFC 9113, section 6.5.2).
pub const MAX_HEADER_LIST_SIZE: u16 = 6;
