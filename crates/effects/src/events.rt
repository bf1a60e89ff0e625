//! What happens to a gateway, and what it puts out.

use h1_writer::Text;

/// What happens to a gateway. Connections to upstreams have numbers, from 1 in the order in which they are opened.
#[derive(Drop)]
pub enum Event {
    /// Octets of the client, at most 65,536.
    Client(Vec<u8>),
    /// The client has gone.
    ClientEnd,
    /// The client's side took so many of the octets that were put out for it.
    ClientTook(u64),
    /// Octets of an upstream.
    Up(u32, Vec<u8>),
    /// An upstream ended its connection.
    UpEnd(u32),
    /// An upstream's connection failed.
    UpFailed(u32),
    /// An upstream's side took so many of the octets that were put out for it.
    UpTook(u32, u64),
    /// The operator wants the connection with the client to end (RFC 9113, section 6.8).
    Drain,
}

/// What a gateway puts out.
#[derive(Drop)]
pub enum Output {
    /// Octets for the client.
    Client(Vec<u8>),
    /// A connection is opened to the upstream of a route, which goes by its place from 0.
    Open(u32, u32),
    /// Octets for an upstream.
    Up(u32, Text),
    /// An upstream's connection is closed.
    Close(u32),
    /// The client's connection is closed.
    CloseClient,
}
