#![tactic(auto)]
//! What is made of a sum.

ghost use Rattle.std.specs.Prelude.{◌≡◌, ◌<◌, true};
ghost use Rattle.linear_rows.specs.inside.Divisions.{is_division};

use operators::LiteralOp;

/// What is made of a sum: it is divided, and the quotient is clamped.
#[derive(Clone, Copy)]
pub(crate) struct LinearMake {
    pub(crate) op: LiteralOp,
    pub(crate) literal: u32,
    pub(crate) low: i32,
    pub(crate) high: i32,
    ghost divides: { is_division op literal ≡ true },
}

/// How a number of 32 bits is made one of 16 bits: it is shifted to the right, and then clamped.
#[derive(Clone, Copy)]
pub(crate) struct LinearShift {
    pub(crate) bits: u32,
    pub(crate) low: i32,
    pub(crate) high: i32,
    ghost few: { bits < 32 },
}
