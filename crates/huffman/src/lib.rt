//! The Huffman code of HPACK (RFC 7541, section 5.2 and appendix B).
//!
//! Both ways are linear in the octets, whatever they are. Decoding looks a whole code up at a step:
//! one of at most eight bits in a table of the eight bits that come, and a longer one among the 17
//! widths that it may have. Encoding appends an octet's code as one number, and puts four octets
//! out at once; room for a text no longer than its string is made once.
#![tactic(auto)]

mod codes;
mod decoder;
mod encoder;
mod long_codes;
mod pending;
mod short_codes;
mod upcoming;
mod words;

pub use crate::decoder::{HuffFault, decode};
pub use crate::encoder::{encode, encoded_len};
