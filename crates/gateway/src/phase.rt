//! How far a connection is.

/// How far a connection is.
#[derive(Clone, Copy, Debug, PartialEq, Eq)]
pub enum Phase {
    /// Nothing came yet: the gateway's settings are owed.
    New,
    /// The client's preface isn't whole yet (RFC 9113, section 3.4).
    Preface,
    /// Its frames are read.
    Frames,
    /// It was closed.
    Closed,
    /// Memory was refused.
    Dead,
}
