//! Whether a program stays in bounds: once the parameters have values, each stage has its domain, and each read stays within what
//! it reads.
//!
//! Words: bound, params, affine value, term value, interval, stage domain, case box, footprint, domain index, table span
//! fault.
#![tactic(auto)]

mod affine;
mod boxes;
mod determined;
mod domain;
mod fault;
mod finding;
mod index;
mod params;
mod reader;
mod stage_bounds;
mod table_spans;
mod taken;
mod within;

pub use affine::affine_value;
pub use determined::bound_faults_are_determined;
pub use fault::{Axis, BoundFault, ParamFault};
pub use index::to_domain_index;
pub use params::{Params, Setting};
pub use stage_bounds::StageBounds;
pub use within::{ProgramBounds, bounds, find_program_bounds};
