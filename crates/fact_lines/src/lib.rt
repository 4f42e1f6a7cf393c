//! Texts of fact files, a line for each in hexadecimal digits: what they hold together, and the line of a file.
//!
//! Words: fact line, fact file line, hex fact, hex fact file, hex fact record, hex retired job.
#![tactic(auto)]

mod contents;
mod fault;
mod head;
mod join;
mod line;
mod records;
mod writing;

pub use contents::FactFileContents;
pub use fault::FactLinesFault;
pub use join::join_fact_file_lines;
pub use writing::{
    FactFileCounts, count_facts_and_jobs_for_fact_file_line, put_fact_file_line,
    write_fact_file_line_to_sink,
};
