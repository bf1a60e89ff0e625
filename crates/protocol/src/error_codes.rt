//! The error codes of RST_STREAM and GOAWAY, by the RFC's names (RFC 9113, section 7).

/// RFC 9113, section 7: the connection or the stream ends without an error.
pub const NO_ERROR: u32 = 0;

/// RFC 9113, section 7: the protocol was broken in a way that has no code of its own.
pub const PROTOCOL_ERROR: u32 = 1;

/// RFC 9113, section 7: an internal error.
pub const INTERNAL_ERROR: u32 = 2;

/// RFC 9113, section 7: flow control was broken.
pub const FLOW_CONTROL_ERROR: u32 = 3;

/// RFC 9113, section 7: a SETTINGS wasn't acknowledged in time.
pub const SETTINGS_TIMEOUT: u32 = 4;

/// RFC 9113, section 7: a frame came on a stream that its sender had ended.
pub const STREAM_CLOSED: u32 = 5;

/// RFC 9113, section 7: a frame hasn't a length that it may have.
pub const FRAME_SIZE_ERROR: u32 = 6;

/// RFC 9113, section 7: the stream was refused before any of it was processed.
pub const REFUSED_STREAM: u32 = 7;

/// RFC 9113, section 7: the stream isn't needed any more.
pub const CANCEL: u32 = 8;

/// RFC 9113, section 7: the header tables of both sides can't be kept alike.
pub const COMPRESSION_ERROR: u32 = 9;

/// RFC 9113, section 7: the connection of a CONNECT was reset or closed.
pub const CONNECT_ERROR: u32 = 10;

/// RFC 9113, section 7: the other side makes more work than is borne.
pub const ENHANCE_YOUR_CALM: u32 = 11;

/// RFC 9113, section 7: the transport isn't secure enough.
pub const INADEQUATE_SECURITY: u32 = 12;

/// RFC 9113, section 7: the request wants HTTP/1.1.
pub const HTTP_1_1_REQUIRED: u32 = 13;
