//! A frame as a slice of the octets that it was read from.

/// A frame (RFC 9113, section 4.1): its type, its flags, the number of its stream, and its payload.
#[derive(Clone, Copy, Debug, PartialEq, Eq)]
pub struct View<'a> {
    pub kind: u8,
    pub flags: u8,
    pub id: u32,
    pub payload: &'a [u8],
}

/// What some octets begin with.
#[derive(Clone, Copy, Debug, PartialEq, Eq)]
pub enum Split<'a> {
    /// A whole frame, and how many octets it takes, its header among them.
    Frame(View<'a>, usize),
    /// Less than a frame, or nothing.
    More,
    /// A whole frame header with a length of over 16,384 octets.
    TooLong,
}
