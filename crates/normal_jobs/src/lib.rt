//! Jobs whose formulas are joined and in normal form. They answer what the jobs answer that they stand for.
//!
//! Words: normal job, normal stage, normal stages, normal body, normal function, normal case, normal cases, normal
//! otherwise, normal accumulator, normal rank, normal ranks, normal copy, normal join, normal joins, normal step, normal use, normal
//! uses, normal outputs, normal finish, light formula, light
//! divisor, light literal, short formula.
#![tactic(auto)]

mod bodies;
mod cases;
mod jobs;
mod joins;
mod ranks;
mod splitting;
mod stages;
mod uses;

pub use jobs::make_normal_job;
