#![tactic(auto)]
//! The exact value of an affine sum.

ghost use Rattle.std.specs.Prelude.{◌≡◌, pos, negsuc, ◌≤ℤ◌, ◌-◌, ◌^◌};
ghost use Rattle.pipe_bounds.specs.Settings.{param_value_or_one_without_name, affine_term_value, affine_value};

use crate::params::Params;
use pipe_tokens::Name;
use pipe_tree::{Affine, AffineTerm};

fn param_value_or_one_without_name(params: &Params, name: &Option<Name>) -> i32
    ensures { result ≡ param_value_or_one_without_name params.now name.now }
{
    match name {
        Some(name) => params.value_or_zero(name),
        None => 1,
    }
}

fn affine_term_value(params: &Params, term: &AffineTerm) -> i128
    ensures value { result ≡ affine_term_value params.now term.now }
    ensures least { negsuc (2 ^ 63 - 1) ≤ℤ result }
    ensures most { result ≤ℤ pos (2 ^ 63) }
{
    let product = i128::from(term.factor)
        * i128::from(param_value_or_one_without_name(params, &term.name));
    if term.negative { -product } else { product }
}

/// The value of a sum at the values of the parameters. A name that is no parameter or has no value counts as 0. It never wraps.
pub fn affine_value(params: &Params, affine: &Affine) -> i128
    ensures { result ≡ affine_value params.now affine.now }
{
    let mut total: i128 = 0;
    for term in affine.terms() {
        total += affine_term_value(params, term);
    }
    total
}
