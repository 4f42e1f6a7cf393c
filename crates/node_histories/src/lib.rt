//! Histories of nodes and events of worlds: a running node is a node of a world whose messages may come from any sender.
//!
//! Words: node histories.
#![tactic(auto)]

pub mod laws;
