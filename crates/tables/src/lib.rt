//! Tables: numbers that are supplied with a picture, a line of text for each table, and the entry that an index takes.
//!
//! Words: table, table span.
#![tactic(auto)]

mod entries;
mod fault;
mod integers;
pub mod laws;
mod line;
mod table;
mod words;

pub use entries::TableEntries;
pub use fault::TableFault;
pub use table::{MOST_ENTRIES, MOST_INDEX, Table};

#[cfg(test)]
mod tests;
