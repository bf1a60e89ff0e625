//! Parts of the text of an HTTP/1.1 response (RFC 9112): its head, how the body is framed behind
//! it, the first line of a chunk, and trailers. Each is read from octets at their front;
//! `h1_reader` goes from one to the next. The tests of both stand in `http1_tests`.
#![tactic(auto)]

mod chunk_line;
mod fault;
mod fields;
mod framing;
mod front;
mod head;
mod octets;
mod passed;
mod room;
mod trailers;

pub use crate::chunk_line::{LINE_START, LinePlace, LineStep, line_step};
pub use crate::fault::ResponseFault;
pub use crate::framing::Framing;
pub use crate::front::{FrontRead, read_front};
pub use crate::passed::{ResponseHead, Trailers};
pub use crate::trailers::{TrailersRead, read_trailers};
