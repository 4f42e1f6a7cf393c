//! Worlds of nodes that run events one at a time: make, send, deliver, merge, keep, restart, retire.
//!
//! Words: world, world network, world jobs, world step fault, finish, to finish, node schedules.
#![tactic(auto)]

mod fault;
mod finishing;
mod network;
mod node;
mod planned;
mod ran;
mod schedules;
mod world;

pub use fault::{FinishFault, WorldFault};
pub use ran::Ran;
pub use schedules::NodeSchedules;
pub use world::World;
