#![tactic(auto)]
//! Epilogues: what is applied to the results of an operator in the same pass over the row.

use crate::changes::{Clamping, ShiftEpilogue};

/// What is applied to the results of an operator, in the same pass over the row.
#[derive(Clone, Copy, Debug)]
pub enum Epilogue {
    /// They stay as they are.
    Nothing,
    /// Their absolute values.
    Absolute,
    /// A number is added, and the sums are divided by a power of two, rounded down.
    Shift(ShiftEpilogue),
    /// They are clamped to at least a number, and then to at most another one.
    Clamping(Clamping),
    /// They are shifted first, and the result is clamped.
    ShiftAndClamping(ShiftEpilogue, Clamping),
}
