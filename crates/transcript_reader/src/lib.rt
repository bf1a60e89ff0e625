//! Rows of whole connections, as files have them, and what a gateway makes of them.
//!
//! A file has paragraphs. Lines that begin with `#` say nothing. A row is a paragraph of these
//! lines, in this order:
//!
//! - `row NAME`: no other row has this name. Or `beginning NAME`: then it isn't run by itself.
//! - `begins NAME`: the row of this name, which stands before it, comes first. Without this line,
//!   nothing does.
//! - `by CONFIG: WORD WORD ..`: it is run by the configuration of this file, or by `default`, that
//!   of a replay without one, and is judged as the words say (`judgements`). A row has one such
//!   line or several.
//! - its events, each line of them behind `> `, and under each what it puts out, as `h2replay`
//!   reads and prints them. `notation` says how octets are written.
//! - `repeat COUNT {id} ID {k} K` up to `end`: the lines between them so many times. In these,
//!   `{id}` is the number of a stream, in hex, from this one on, and `{k}` that of a connection,
//!   from this one on.
#![tactic(auto)]

mod ends_of_clients;
mod ends_of_upstreams;
mod judgements;
mod messages;
mod notation;
mod octets;
mod printing;
mod reading;
mod rows;
mod runs;
mod texts;
mod transcripts;
mod world_faults;

pub use reading::go_through;
