#![tactic(auto)]
//! Formulas whose instructions are chosen.

use domains::Index;
use narrow_sums::{NarrowSumRead, NarrowSumRow};
use operators::{Axis, BinaryOp, Kernel, LiteralOp, Relation, TernaryOp, UnaryOp};
use tables::TableEntries;

/// A formula as a tree of instructions: what computes its values along a row. A stage is named by its number.
#[derive(Drop)]
pub enum NarrowProgram {
    Number(i32),
    /// Not computed in 16 bits.
    Coordinate(Axis),
    /// Adjacent samples, which are taken where they lie.
    Line(NarrowSumRead),
    /// The samples of a stage at the columns that an index takes.
    Gather(usize, Index, Index),
    Unary(UnaryOp, Box<NarrowProgram>),
    Binary(BinaryOp, Box<NarrowProgram>, Box<NarrowProgram>),
    Ternary(TernaryOp, Box<NarrowProgram>, Box<NarrowProgram>, Box<NarrowProgram>),
    /// An operation whose right operand is a number of the text.
    Literal(LiteralOp, Box<NarrowProgram>, u32),
    /// Not computed in 16 bits.
    Lookup(TableEntries, Box<NarrowProgram>),
    /// Two numbers that are compared, and what is taken where the relation holds and where it does not.
    Select(
        Box<NarrowProgram>,
        Relation,
        Box<NarrowProgram>,
        Box<NarrowProgram>,
        Box<NarrowProgram>,
    ),
    /// A stage, what the sum is divided by, and the factors.
    Stencil(usize, u32, Kernel),
    /// The absolute differences of two lines.
    Distance(NarrowSumRead, NarrowSumRead),
    /// The least of three lines.
    Least(NarrowSumRead, NarrowSumRead, NarrowSumRead),
    /// The greatest of three lines.
    Greatest(NarrowSumRead, NarrowSumRead, NarrowSumRead),
    /// The middle ones of three lines.
    Median(NarrowSumRead, NarrowSumRead, NarrowSumRead),
    /// A sum of products, in as few passes as can be.
    Sum(NarrowSumRow),
    /// The same, which begins with what another program gives.
    JoinedSum(Box<NarrowProgram>, NarrowSumRow),
}
