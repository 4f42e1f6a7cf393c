#![tactic(auto)]
//! Formulas in which each name was looked up.

use domains::Index;
use operators::{Axis, BinaryOp, Kernel, LiteralOp, Relation, TernaryOp, UnaryOp};
use tables::TableEntries;

/// A number at each point. A stage is named by its number.
#[derive(Debug, Drop)]
pub enum Formula {
    Number(i32),
    Coordinate(Axis),
    /// The value of a stage at the indices of the row and of the column.
    Read(usize, Index, Index),
    Unary(UnaryOp, Box<Formula>),
    Binary(BinaryOp, Box<Formula>, Box<Formula>),
    Ternary(TernaryOp, Box<Formula>, Box<Formula>, Box<Formula>),
    /// An operation whose right operand is a number of the text.
    Literal(LiteralOp, Box<Formula>, u32),
    /// The entry of a table at an index.
    Lookup(TableEntries, Box<Formula>),
    /// Two numbers that are compared, and what is taken where the relation holds and where it does not.
    Select(Box<Formula>, Relation, Box<Formula>, Box<Formula>, Box<Formula>),
    /// A stage, what the sum is divided by, and the factors.
    Stencil(usize, u32, Kernel),
}
