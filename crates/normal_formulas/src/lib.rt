//! The normal form of formulas: laws that change no value make the spellings of one formula alike.
//!
//! Words: normal formula, normal formulas, normal operands, normal order, normal bound, normal literal, normal stencil, normal
//! shift, normal clamp, normal distance, normal median, normal third, normal lesser, normal relation, normal sum, normal term,
//! normal terms, normal kernel, normal factors, normal reach, normal number, normal index, normal indices, normal read, normal
//! place, normal parts, normalize.
#![tactic(auto)]

mod clamps;
mod copies;
mod kernels;
mod medians;
mod normal;
mod quotients;
mod relations;
mod same;
mod sums;

pub use copies::copy_normal_formula;
pub use normal::normalize_formula;
