//! The commands `merge` and `audit`: from an input to the lines that they write.
//!
//! Words: audit stream, audit input, audit line, audit verdict, merge stream, merge input.
#![tactic(auto)]

mod audit;
mod audit_lines;
mod audits;
mod fact_input;
mod finding;
mod merges;

pub use audits::audit_stream;
pub use fact_input::{join_fact_files_of_merge_input, read_job_and_facts_of_audit_input};
pub use finding::AuditFinding;
pub use merges::merge_stream;
