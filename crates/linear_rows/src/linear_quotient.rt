#![tactic(auto)]
//! A formula, with the sum in it and with what is made of it.

ghost use Rattle.std.specs.Prelude.{◌≡◌, map};
ghost use Rattle.std.proofs.Props.{props};
ghost use Rattle.job.specs.Reads.{reads_in};
ghost use Rattle.job.specs.Views.{formula_view};
ghost use Rattle.linear_rows.specs.inside.LinearSums.{tap_read, GivesValues};

use crate::linear_make::LinearMake;
use crate::linear_taps::LinearSum;
use job::Formula;

/// A formula that divides a sum of products and bounds the quotient.
#[derive(Drop)]
pub struct LinearQuotient<'a> {
    pub(crate) formula: &'a Formula,
    pub(crate) sum: LinearSum<'a>,
    pub(crate) make: LinearMake,
    ghost values: { GivesValues (formula_view formula.now) sum make },
    ghost reads: { map tap_read sum.taps.items ≡ reads_in (formula_view formula.now) } by { Prim.hlevel props },
}
