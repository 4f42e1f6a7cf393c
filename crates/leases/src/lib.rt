//! Leases of keys: for each key one holder at a time, by a clock that the callers supply.
//!
//! Words: lease, desk, lease log, seen leases, claim, release.
#![tactic(auto)]

mod answer;
mod book;
mod desk;
mod entry;
pub mod laws;
mod live;
mod log;
mod steps;

pub use answer::{Claim, Release};
pub use book::DeskBook;
pub use desk::Desk;
pub use entry::{Lease, LeaseEntry};
pub use live::LiveDesk;
pub use log::{NamedDesk, NewLeaseLog, SeenLeases};
