//! The facts that a node holds, and what it makes and answers from them.
//!
//! Words: held, held fact, held tile, held job facts, lend, make fault, answer fault.
#![tactic(auto)]

mod answer_fault;
mod answering;
mod answers;
mod facts;
mod held;
mod held_tiles;
mod held_totals;
mod judging;
pub mod laws;
mod lending;
mod local_bodies;
mod make_fault;
mod making;
mod missing;

pub use answer_fault::AnswerFault;
pub use answers::{Known, LendFault, Taken};
pub use facts::HeldFacts;
pub use make_fault::MakeFault;
