//! Responses of an HTTP/1.1 server, read from octets that come in pieces of any length (RFC 9112).
#![tactic(auto)]

pub mod laws;
mod piece;
mod reader;

pub use crate::piece::Piece;
pub use crate::reader::{Ended, Reader};
pub use response_texts::{ResponseFault, ResponseHead, Trailers};
