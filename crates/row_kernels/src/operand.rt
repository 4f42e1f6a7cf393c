#![tactic(auto)]
//! The operands of an operator along a row.

/// What an operator takes at each place of a row that it writes.
#[derive(Clone, Copy, Debug)]
pub enum Operand<'a> {
    /// The numbers of a separate line.
    Line(&'a [i32]),
    /// One number, the same at each place.
    Number(i32),
    /// The numbers that are in the row.
    Written,
}
