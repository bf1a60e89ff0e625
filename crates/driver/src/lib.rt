//! A gateway before a world: what happens comes from it, and what is put out goes to it.
#![tactic(auto)]

mod memory;
mod service;
mod services;
mod world;

pub use memory::{HandedCall, MemoryWorld};
pub use service::Service;
pub use services::{Peer, ServeFault, ServiceEnd, serve};
pub use world::{Next, World, WorldFault};
