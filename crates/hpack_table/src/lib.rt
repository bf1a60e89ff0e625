//! The tables of HPACK: the static one, and the dynamic one of a direction (RFC 7541, section 2.3).
//!
//! The dynamic table is a ring with the newest field first. So an index is a place in an array or
//! in the ring, and needs no walk; a field that is added moves no other unless the block is full,
//! and each that has to go is taken off the end at one step, and `room_behind` counts a field's
//! size from the lengths alone. `find` looks at the static entries of one name, which stand where
//! the name's slot says. In a table with an index it then looks at the fields with the sought hash
//! alone, and else at each field once.
#![tactic(auto)]

mod by_hash;
mod chains;
mod field;
mod found;
mod index;
pub mod laws;
mod ring;
mod static_table;
mod table;

pub use crate::field::Field;
pub use crate::found::Found;
pub use crate::static_table::static_entry;
pub use crate::table::Table;
