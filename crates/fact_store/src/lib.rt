//! Finite sets of facts, and the stores that keep them.
//!
//! Words: fact store, fact set, sorted facts, key facts, table facts.
#![tactic(auto)]

pub mod laws;
mod sorted;
mod store;
mod tables;

pub use sorted::{SortedFacts, is_fact_set_key_of_jobs};
pub use store::FactStore;
pub use tables::TableFacts;
