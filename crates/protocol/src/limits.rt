//! First, least and greatest values (RFC 9113, RFC 7541), and the gateway's own limits.

/// The longest payload that a frame may have (RFC 9113, section 4.2: the first value of SETTINGS_MAX_FRAME_SIZE).
pub const LONGEST_PAYLOAD: usize = 16384;

/// The least value of SETTINGS_MAX_FRAME_SIZE (RFC 9113, section 6.5.2).
pub const LEAST_FRAME_SIZE: u32 = LONGEST_PAYLOAD as u32;

/// The greatest value of SETTINGS_MAX_FRAME_SIZE (RFC 9113, section 6.5.2).
pub const GREATEST_FRAME_SIZE: u32 = 16777215;

/// A window of flow control at first (RFC 9113, section 6.9.2).
pub const FIRST_WINDOW: u32 = 65535;

/// The greatest window, increment and value of SETTINGS_INITIAL_WINDOW_SIZE (RFC 9113, sections 6.5.2 and 6.9.1).
pub const GREATEST_WINDOW: u32 = 2147483647;

/// The maximum of a header table at first (RFC 9113, section 6.5.2: the first value of SETTINGS_HEADER_TABLE_SIZE).
pub const FIRST_TABLE_SIZE: u32 = 4096;

/// The greatest maximum of a header table, in both directions: the gateway announces no other (RFC
/// 7541, section 4.2), and takes no greater one of a client, by its own limit.
pub const LARGEST_TABLE_SIZE: u32 = FIRST_TABLE_SIZE;

/// How many streams of a connection are served: the gateway's own limit.
pub const MOST_STREAMS: u32 = 10000;

/// How many streams may be active at a time: the gateway's own limit, which it announces as
/// SETTINGS_MAX_CONCURRENT_STREAMS (RFC 9113, section 5.1.2).
pub const MOST_ACTIVE: u32 = 100;

/// How many resets of active streams are borne: the gateway's own limit.
pub const MOST_RESETS: u32 = 1000;

/// How many octets a header block may have: the gateway's own limit.
pub const LONGEST_BLOCK: usize = 65536;

/// In how many CONTINUATION frames a header block may come: the gateway's own limit.
pub const MOST_CONTINUATIONS: u32 = 64;

/// How large a header list may be: the gateway's own limit, which it announces as
/// SETTINGS_MAX_HEADER_LIST_SIZE (RFC 9113, section 6.5.2).
pub const LARGEST_FIELDS: usize = 16384;

/// How many octets of one side may come in one event: the gateway's own limit.
pub const LARGEST_EVENT: usize = 65536;

/// As long as fewer octets for the client are untaken, parts of responses begin: the gateway's own limit.
pub const HIGH_WATER: u64 = 65536;

/// While more octets for the client are untaken, parts of responses alone go out: the gateway's own limit.
pub const MOST_UNTAKEN: u64 = 1048576;

/// While more octets for the client are untaken, nothing that it sends is read: the gateway's own limit.
pub const GREATEST_UNTAKEN: u64 = 1073741824;
