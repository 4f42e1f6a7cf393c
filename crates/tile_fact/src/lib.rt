//! Finished tiles as values that can be passed on and judged, and the files that hold them.
//!
//! Words: fact, body, fact key, fact file, fact record, retired jobs, encode, decode.
#![tactic(auto)]

mod body;
mod fact;
mod fault;
mod file;
mod head;
mod kind;
pub mod laws;
mod number_bytes;
mod numbers;
mod record;
mod retired;
mod update;
mod version;
mod writing;

pub use body::Body;
pub use fact::{Fact, MAX_BINS, MAX_SAMPLES};
pub use fault::FactFault;
pub use file::{FactFile, Facts, JobIds, decode};
pub use numbers::{Bins, Samples};
pub use sequences::SharedSequence;
pub use update::Update;
pub use writing::encode;
