//! What goes to the client at once.

use h1_reader::ResponseHead;
use hpack_table::Field;

/// The next part of a response, as it lies in an outbox: an interim head, the final head, octets of
/// the body, or trailers. The middle two say whether the response ends with them; it ends with
/// trailers.
#[derive(Clone, Copy, Drop)]
pub enum Part<'a> {
    /// An interim head (RFC 9110, section 15.2).
    Early(&'a ResponseHead),
    /// The final head.
    Final(&'a ResponseHead, bool),
    /// Octets of the body, as they lie: the second part is behind the first. There are none of them
    /// only where the response ends so.
    Octets(&'a [u8], &'a [u8], bool),
    /// The trailers (RFC 9113, section 8.1).
    Trailing(&'a [Field]),
}
