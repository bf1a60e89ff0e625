//! The rules of a request by HTTP/2 (RFC 9113, section 8): of its head, of its trailers, and of its body's length.
#![tactic(auto)]

mod body_count;
mod check;
mod head;
mod rule;
mod rules;
mod trailers;

pub use crate::body_count::BodyCount;
pub use crate::check::{are_trailers, check_head, check_trailers};
pub use crate::head::RequestHead;
pub use crate::rule::Rule;
