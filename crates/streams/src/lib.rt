//! Readers and writers that count their failed calls; reading all bytes, and writing all bytes.
//!
//! Words: source, sink, metered, all bytes.
#![tactic(auto)]

mod stream;
mod whole;

pub use stream::{Metered, Sink, Source};
pub use whole::{SourceFault, WriteFailed, read_all_bytes_within_limit, write_all_bytes};
