//! Header blocks of HPACK (RFC 7541).
#![tactic(auto)]

mod block;
mod decoder;
mod encoder;
mod fault;
mod fields;
mod gather;
mod join_fault;
mod joiner;
pub mod laws;
mod limits;
mod maxima;
mod policy;
mod representations;
mod strings;

pub use crate::block::Block;
pub use crate::decoder::Decoder;
pub use crate::encoder::Encoder;
pub use crate::fault::DecodeFault;
pub use crate::gather::Decoded;
pub use crate::join_fault::JoinFault;
pub use crate::joiner::Joiner;
pub use crate::policy::Policy;
pub use hpack_table::Field;
