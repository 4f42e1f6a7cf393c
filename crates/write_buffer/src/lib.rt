//! Bytes on their way into a writer, through a buffer of fixed size.
//!
//! Words: write buffer, hex pair.
#![tactic(auto)]

mod buffer;

pub use buffer::WriteBuffer;
