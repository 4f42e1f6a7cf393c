//! The parser of programs: from a text to its tree, or to its first fault.
//!
//! Words: parse, item, fault offset.
#![tactic(auto)]

mod items;
mod text;

pub use text::parse;
