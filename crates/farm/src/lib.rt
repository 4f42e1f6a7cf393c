//! A farm: nodes, each with two workers in threads of their own. They make the tiles of a job together and send one another what
//! they have made.
//!
//! Words: farm, farm node, farm worker, farm thread, worker site, worker seat, worker receipts, node lookup.
#![tactic(auto)]

mod closing;
mod farm;
mod fault;
mod hand;
mod named;
mod node;
mod refusal;
mod report;
mod site;
mod start;
mod threads;
mod worker;

pub use farm::Farm;
pub use fault::FarmFault;
pub use live_nodes::ClosedNode;
pub use refusal::FarmNodeRefusal;
pub use report::FarmReport;
pub use start::ThreadRefusal;
