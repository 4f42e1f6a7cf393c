#![tactic(auto)]
//! Rows of five factors.

ghost use Rattle.std.specs.Prelude.{◌≡◌, ◌<◌, ◌≤◌, ◌+◌, ◌+ℤ◌, ℤ, take, length, IfSome, IfNone};
ghost use Rattle.domains.specs.Arithmetic.{wrapped};
ghost use Rattle.row_loops.specs.Rows.{EachPlace, at};
ghost use Rattle.stencil_kernels.specs.Stencil.{tap_sum};

use crate::products::add_tap_product;
use domains::arithmetic::wrapping_add;
use std::marker::Model;

/// A row of five factors. Contracts see their list.
#[derive(Debug, Drop)]
pub struct FactorQuintuple {
    first: i32,
    second: i32,
    third: i32,
    fourth: i32,
    fifth: i32,
}

impl Model for FactorQuintuple {
    ghost use Rattle.std.specs.Prelude.{List, [], ◌∷◌, ℤ};

    ghost Value = { List ℤ };

    ghost view = { λ q. q.first ∷ q.second ∷ q.third ∷ q.fourth ∷ q.fifth ∷ [] };
}

impl FactorQuintuple {
    /// The first five factors, if there are at least five.
    pub fn from_first_factors(factors: &[i32]) -> Option<FactorQuintuple>
        ensures is { IfSome result (λ q. q ≡ take 5 factors.now) }
        ensures many { IfSome result (λ q. 5 ≤ length factors.now) }
        ensures none { IfNone result (length factors.now < 5) }
    {
        match factors {
            [first, second, third, fourth, fifth, ..] => Some(FactorQuintuple {
                first: *first,
                second: *second,
                third: *third,
                fourth: *fourth,
                fifth: *fifth,
            }),
            _ => None,
        }
    }

    /// The factors times the numbers from place `k` on, wrapped at 32 bits.
    #[inline]
    fn sum_products(&self, line: &[i32], k: usize) -> i32
        requires { k + 4 < length line.now }
        ensures { result ≡ wrapped (tap_sum self.now line.now k) }
    {
        let one = add_tap_product(0, self.first, line, k);
        let two = add_tap_product(one, self.second, line, k + 1);
        let three = add_tap_product(two, self.third, line, k + 2);
        let four = add_tap_product(three, self.fourth, line, k + 3);
        add_tap_product(four, self.fifth, line, k + 4)
    }

    /// Adds at each place the factors times the numbers from there on.
    pub fn add_product_sums(self, out: &mut [i32], line: &[i32])
        requires { length out.old + 4 ≤ length line.now }
        ensures { EachPlace (length out.old)
            (λ k. at out.new k ≡ wrapped (at out.old k +ℤ wrapped (tap_sum self line.now k))) }
    {
        for k in 0..out.len() {
            out[k] = wrapping_add(out[k], self.sum_products(line, k));
        }
    }

    /// Writes at each place the factors times the numbers from there on.
    pub fn write_sums(self, out: &mut [i32], line: &[i32])
        requires { length out.old + 4 ≤ length line.now }
        ensures { EachPlace (length out.old)
            (λ k. at out.new k ≡ wrapped (tap_sum self line.now k)) }
    {
        for k in 0..out.len() {
            out[k] = self.sum_products(line, k);
        }
    }
}
