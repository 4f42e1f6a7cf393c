//! From the bytes of an input to its job, or to its fault; and the catalog that has the job alone.
//!
//! Words: input job, input program, input section, input separator, input table line, input fault.
#![tactic(auto)]

mod bind_faults;
mod job_catalog;
mod jobs;
mod programs;
mod sections;
mod settings;
mod table_lines;

pub use job_catalog::make_catalog_of_input_job;
pub use jobs::{read_input_job, read_input_job_and_middle_section};
pub use sections::{split_into_three_input_sections, split_off_input_section};
