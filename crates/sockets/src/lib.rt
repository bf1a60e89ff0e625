//! The world of sockets: one client of a gateway, and the upstreams that are opened for it; and
//! what tells the worlds of many clients what is reported. Tests stand in `sockets_tests`.
#![tactic(auto)]

mod buffer;
mod connections;
mod departure;
mod leaving;
mod portion;
mod queues;
mod reactor;
mod reporting;
mod rooms;
mod side;
mod upstream;
mod wire;
mod world;

pub use buffer::Buffer;
pub use departure::Departure;
pub use portion::Portion;
pub use reactor::Reactor;
pub use reporting::{client_in, number_in, token_in};
pub use side::Side;
pub use wire::Wire;
pub use world::SocketWorld;
