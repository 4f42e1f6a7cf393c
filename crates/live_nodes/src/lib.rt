//! Nodes that threads share: each is a book under a lock, with a seat for each caller, a receipt for each recorded call, and at
//! its end a history that is checked against all receipts.
//!
//! Words: live node, node book, closed node, close fault, node event, node event part, receipt, seat.
#![tactic(auto)]

mod book;
mod closing;
mod equality;
mod event;
mod fault;
pub mod laws;
mod live;
mod matching;
mod receipt;
mod seat;

pub use book::NodeBook;
pub use closing::{ClosedNode, close_node_book};
pub use event::{Event, Keys, RetiredIds, Updates};
pub use fault::CloseFault;
pub use live::LiveNode;
pub use matching::check_receipts_against_node_events;
pub use receipt::{Loan, Receipt};
pub use seat::Seat;
