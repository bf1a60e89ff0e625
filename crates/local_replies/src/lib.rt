//! What the head of a request comes to: that it is none, why the gateway answers it itself, and else where it goes.
#![tactic(auto)]

mod cause;
mod opening;
mod route;
mod trailers;

pub use crate::cause::Cause;
pub use crate::opening::{Opening, judge_head};
pub use crate::route::RoutePattern;
pub use crate::trailers::are_malformed_trailers;
