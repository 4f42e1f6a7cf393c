//! Stages for parts of formulas: those that formulas repeat, at the same or at shifted points, quotients that are computed in 16 bits only
//! as functions of their own, and the columns of kernels that are products of a column and a row of factors. Such a stage has a value
//! wherever all that the part reads has one.
//!
//! Words: part stage, part stages, part area, part read, part reads, part span, part kernel, part formula, part divisor, part literal, part
//! step, part number, part table, part function, part rank, part ranks, part form, part forms, part code, part codes, part
//! formulas, parts of sum, sum of parts, whole part, whole parts, repeated part, repeated parts, column stage, column stages, part
//! quotient, part product, part products, part factors, case part.
#![tactic(auto)]

mod column_kernels;
mod part_areas;
mod part_counts;
mod part_finder;
mod part_forms;
mod part_formulas;
mod part_kernels;
mod part_quotients;
mod part_ranks;
mod part_reads;
mod part_stage;
mod part_stages;
mod part_uses;

pub use part_finder::find_part_stages;
pub use part_formulas::find_only_part_formula;
pub use part_ranks::find_greatest_part_rank;
pub use part_stages::PartStages;
