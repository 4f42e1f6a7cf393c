//! Texts of programs in their canonical form: of all texts of a tree this one has the fewest tokens, no blank that could be
//! omitted and no parenthesis that the grammar does not need.
//!
//! Words: print, printed, printer, canonical text, parentheses, list entry.
#![tactic(auto)]

mod affines;
mod expressions;
mod forms;
mod indices;
mod items;
pub mod laws;
mod lists;
mod place;
mod printer;
mod text;

pub use text::print;
