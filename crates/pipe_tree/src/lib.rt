//! The language of image pipelines: a program as a tree, the grammar of its text and its limits, and the faults of texts that
//! have no tree. The parser is in the crates above.
//!
//! Words: tree, affine, cases, condition, kernel, stencil row, parse fault, text counts, call op.
#![tactic(auto)]

mod ahead;
mod fault;
mod limits;
mod sizes;
mod tree;
mod uniqueness;

pub use ahead::{CallOp, ItemStart, Opening, ProductOp, UnaryStart};
pub use fault::{Halt, ParseFault, ParseFaultKind};
pub use limits::{MAX_BYTES, MAX_LEVELS, Role, TextCounts};
pub use sizes::trees_keep_limits;
pub use tree::{
    Accum, Affine, AffineSpan, AffineTerm, Case, Cases, Condition, Expr, Func, Image, Index, Item,
    Kernel, Names, Output, Param, StencilRow, Table, Test, Tree, Variable,
};
pub use uniqueness::{bytes_have_at_most_one_parse_fault, texts_have_one_tree};
