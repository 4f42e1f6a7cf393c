//! The rows of a job's stages that were made last, kept in rings: each next row is made from those that it reads.
//!
//! Rows are numbers of 32 bits, of 16 bits, or both. A stage is computed in 16 bits where its values and those that it reads fit in them.
//!
//! Words: ring, rings, ring form, narrow ring.
#![tactic(auto)]

mod converting;
mod form_check;
mod form_choice;
mod job_rings;
mod kept_rows;
mod making;
mod narrow_making;
mod narrow_ring_source;
mod new_rings;
mod ring;
mod ring_forms;
mod ring_shapes;
mod ring_source;
mod wide_rows;

pub use job_rings::JobRings;
pub use ring::{RowRing, RowRings};
