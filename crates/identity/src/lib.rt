//! The identities of programs and of their inputs, and the keys of tiles.
//!
//! Words: id, key field, hex digit, hex byte, hex digest.
#![tactic(auto)]

mod ids;
mod job_ids;
mod key;
pub mod laws;

pub use ids::{InputId, ProgramId};
pub use job_ids::JobId;
pub use key::Key;
