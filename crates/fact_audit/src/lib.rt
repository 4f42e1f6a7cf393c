//! Which facts are true of the jobs of a catalog: verdicts, by whole stages that are computed without a schedule.
//!
//! Words: audit, audited, audited stage, judge, verdict, true fact, well shaped, job of fact key.
#![tactic(auto)]

pub mod laws;
mod several;
mod shape;
mod single;
mod truth;
mod verdict;

pub use several::audit_facts;
pub use shape::is_well_shaped_fact;
pub use single::{audit, borrow_job_of_fact_key};
pub use verdict::Verdict;
