//! Formulas in which reads of stages that are one formula at all points become this formula.
//!
//! Words: joined formula, join formula, joined read, join read, join stencil, joined index, joined indices, joined source, joined kernel, joined
//! column, joined row, joined part, joined list, joined span, joined table, own index, own stencil, wide stencil, stage formula.
#![tactic(auto)]

mod columns;
mod indices;
mod joined;
mod known;
mod known_parts;

pub use columns::is_joined_column_formula;
pub use joined::{join_formula, make_joined_formula};
pub use known::StageFormula;
pub use known_parts::find_joined_part;
