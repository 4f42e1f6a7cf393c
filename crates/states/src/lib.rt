//! States of facts and retired jobs: their join and their order.
//!
//! Words: state join.
#![tactic(auto)]

pub mod laws;
