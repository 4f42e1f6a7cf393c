#![tactic(auto)]
//! The operands of an operator along a row of numbers of 16 bits.

/// What an operator takes at each place of a row that it writes.
#[derive(Clone, Copy, Debug)]
pub enum NarrowOperand<'a> {
    /// The numbers of a separate line.
    Line(&'a [i16]),
    /// One number, the same at each place.
    Number(i16),
    /// The numbers that are in the row.
    Written,
}
