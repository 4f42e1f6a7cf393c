//! The parser of terms: each rule of the grammar for what occurs inside an item is a method of [`TermParser`], which reads it from
//! left to right with one token ahead.
//!
//! Words: term parser, parse error, token ahead, sign.
#![tactic(auto)]

mod affines;
mod expressions;
mod indices;
mod lookahead;
mod parse_error;
mod parser;

pub use parse_error::ParseError;
pub use parser::TermParser;
