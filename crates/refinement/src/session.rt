//! All that is kept of a connection.

use connection_state::Connection;
use header_blocks::Encoder;
use send_queue::Offers;
use std::marker::Model;
use upstream_connections::Upstreams;
use window_credit::Marks;

/// All that is kept of a connection to a client whose frames can be read, beside octets of a frame
/// that isn't complete: of the client's frames and of its streams, of what is on offer for them, of
/// requests that aren't whole and of open connections to upstreams, of DATA that waits for those,
/// the encoder of blocks to the client, and how many octets that were put out for the client its
/// side hasn't taken. A clause sees it as a `View`.
#[derive(Drop)]
pub struct Session {
    /// What is kept for the client's frames: its streams, windows, settings and header table.
    pub inbound: Connection,
    /// What is on offer for its active streams.
    pub offers: Offers,
    /// Requests that aren't whole, and open connections to upstreams.
    pub upstreams: Upstreams,
    /// What waits of streams' DATA until their upstreams' sides took what was put out for them,
    /// where requests are passed on as they come.
    pub marks: Marks,
    /// The encoder of header blocks to the client.
    pub encoder: Encoder,
    /// How many octets for the client aren't taken.
    pub untaken: u64,
}

impl Model for Session {
    ghost use Rattle.refinement.specs.View.{View};

    ghost Value = { View };

    ghost view = { λ session. record {
      inbound = session.inbound;
      offers = session.offers;
      upstreams = session.upstreams;
      marks = session.marks;
      encoding = session.encoder;
      untaken = session.untaken;
    } };
}
