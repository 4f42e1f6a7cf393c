//! Scratch memory: a range of one vector is borrowed for writing, while the numbers before and after it are borrowed for reading.
//!
//! Words: scratch, scratch vec, scratch slice.
#![tactic(auto)]

mod numbers;
mod parts;
mod scratch;

pub use scratch::Scratch;
