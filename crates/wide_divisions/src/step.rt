#![tactic(auto)]
//! Steps of restoring divisions.

use crate::reads::DivisionStepRead;

/// What a step begins with: the partial remainder and the quotient, in one number.
#[derive(Clone, Copy)]
pub enum DivisionStepRest<'a> {
    /// What an earlier step has left.
    Read(DivisionStepRead<'a>),
    /// The dividend of the first step: `factor * min(read, most)`.
    Capped {
        factor: i32,
        read: DivisionStepRead<'a>,
        most: i32,
    },
}

/// A step of a restoring division. The lower bits of a number hold the partial remainder, and those above them the
/// quotient. If the divisor is at most the partial remainder, it is subtracted, and a digit is added to the quotient.
#[derive(Clone, Copy)]
pub struct DivisionStep<'a> {
    /// The partial remainder and the quotient.
    pub rest: DivisionStepRest<'a>,
    /// The divisor before it is multiplied.
    pub divisor: DivisionStepRead<'a>,
    /// The exponent of the power of two by which the divisor is multiplied, if it is, from 0 to 31.
    pub shift: Option<u32>,
    /// How many bits the partial remainder has, from 0 to 31.
    pub bits: u32,
    /// What is added where the divisor is subtracted.
    pub digit: i32,
}
