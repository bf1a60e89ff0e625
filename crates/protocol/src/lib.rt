//! The numbers of HTTP/2 and of the gateway, each at one place: types and flags of frames, lengths,
//! settings, error codes, and limits.
//!
//! It has constants alone. Definitions have their own numbers, in `model/specs`: a proof ties the
//! two together, so that a change of one alone is refused. Tests write their numbers out.
#![tactic(auto)]

pub mod error_codes;
pub mod flags;
pub mod frame_types;
pub mod lengths;
pub mod limits;
pub mod setting_ids;
